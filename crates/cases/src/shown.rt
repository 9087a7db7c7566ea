// The worked cases, proved as one list.
ghost use Rattle.std.specs.Prelude.{◌≡◌, length};
ghost use Rattle.cases.specs.Worked.{WorkedCasesFollow, cases};

// How many worked cases there are; each of them follows from the rules.
pub fn worked_cases() -> u8
    ensures all { WorkedCasesFollow }
    ensures count { result ≡ length cases }
{
    14
}
