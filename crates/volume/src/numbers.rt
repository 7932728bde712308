// The numbers by which answers, conditions and owners are told outside the volume: to C, in the bytes of a state, in a script's lines.
ghost use Rattle.std.specs.Prelude.{◌≡◌};
ghost use Rattle.volume.specs.meaning.State.{condition_number, condition_of_number, owner_number, owner_of_number};
ghost use Rattle.volume.specs.meaning.CallContracts.{answer_number};
ghost use Rattle.volume.specs.meaning.Report.{told_number};
ghost use Rattle.volume.specs.meaning.RefusalNumbers.{refusal_number};

use super::{Answer, Condition, Owner, Refusal, ReportedCondition};

impl Refusal {
    // The documents' number; 16 and 17 stand at 6's place and say more of a bad log.
    pub fn number(self) -> u8
        ensures { result ≡ refusal_number self }
    {
        match self {
            Refusal::Geometry => 1,
            Refusal::Length => 2,
            Refusal::Pointer => 3,
            Refusal::TwoLost => 4,
            Refusal::Label => 5,
            Refusal::Log => 6,
            Refusal::Stale => 7,
            Refusal::Address => 8,
            Refusal::Run => 9,
            Refusal::Order => 10,
            Refusal::Sealed => 11,
            Refusal::Worn => 12,
            Refusal::Unwritten => 13,
            Refusal::LogFull => 14,
            Refusal::Gone => 15,
            Refusal::HostLimit => 18,
            Refusal::OpenLimit => 19,
        }
    }
}

// 0 finished, 255 unfinished, else the refusal's number.
pub fn answer_number(a: Answer) -> u8
    ensures { result ≡ answer_number a }
{
    match a {
        Answer::Finished => 0,
        Answer::Unfinished => 255,
        Answer::Refused(n) => n,
        Answer::BadLog(b) => b.number,
    }
}

// 0 empty, 1 open, 2 sealed, 3 worn.
pub fn condition_number(c: Condition) -> u32
    ensures { result ≡ condition_number c }
{
    match c {
        Condition::Empty => 0,
        Condition::Open(_) => 1,
        Condition::Sealed(_) => 2,
        Condition::Worn(_) => 3,
    }
}

// A condition as a report tells it: 0 empty, 1 open, 2 read-only.
pub fn told_number(c: ReportedCondition) -> u64
    ensures { result ≡ told_number c }
{
    match c {
        ReportedCondition::Empty => 0,
        ReportedCondition::Open => 1,
        ReportedCondition::ReadOnly => 2,
    }
}

// The condition of a number, with a pointer.
pub fn condition_of(number: u64, pointer: usize) -> Condition
    ensures { result ≡ condition_of_number number pointer }
{
    match number {
        1 => Condition::Open(pointer),
        2 => Condition::Sealed(pointer),
        3 => Condition::Worn(pointer),
        _ => Condition::Empty,
    }
}

// 0 nobody, 1 host 0, 2 host 1.
pub fn owner_number(o: Owner) -> u32
    ensures { result ≡ owner_number o }
{
    match o {
        Owner::Nobody => 0,
        Owner::Host0 => 1,
        Owner::Host1 => 2,
    }
}

// The owner of a number.
pub fn owner_of_number(number: u64) -> Owner
    ensures { result ≡ owner_of_number number }
{
    match number {
        1 => Owner::Host0,
        2 => Owner::Host1,
        _ => Owner::Nobody,
    }
}
