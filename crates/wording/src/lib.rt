// The words of the report and the listing for verdicts, settings and rules (docs/RULES.md, section 12; docs/LISTING.md).
#![tactic(auto)]

pub mod asked;
pub mod values;
pub mod verdict;
