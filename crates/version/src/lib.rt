// The version of the library and of its programs, as `specs/Version` says it.
#![tactic(auto)]

ghost use Rattle.std.specs.Prelude.{◌≡◌};
ghost use Rattle.version.specs.Version.{version};

pub fn number() -> u32
    ensures { result ≡ version }
{
    4_01_00
}
