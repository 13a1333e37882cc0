// The search by number, for train cards and for plan entries alike.
ghost use Rattle.std.specs.Prelude.{◌≡◌, ℕ, ◌<◌, length, IfSome, ◌==◌};
ghost use Rattle.std.specs.List.{position};
ghost use Rattle.rules.specs.Searches.{search_by};

use rules::line::{PlanEntry, Train};

// A record that bears a number.
pub(crate) trait Numbered {
    ghost borne: { Self → ℕ };

    fn number(&self) -> u32
        ensures { result ≡ borne self.now };
}

impl Numbered for Train {
    ghost borne = { λ train. train.number };

    fn number(&self) -> u32 {
        self.number
    }
}

// A plan entry goes by its name.
impl Numbered for PlanEntry {
    ghost borne = { λ entry. entry.name };

    fn number(&self) -> u32 {
        self.name
    }
}

// The first index whose record bears the number.
fn place_of<R: Numbered>(records: &[R], number: u32) -> Option<usize>
    ensures is { result ≡ position (λ x. R.borne x == number) records.now }
    ensures within { IfSome result (λ index. index < length records.now) }
{
    records.iter().position(|record| record.number() == number)
}

// The same, but that no record is looked at for 0, which none bears.
pub(crate) fn search<R: Numbered>(records: &[R], number: u32) -> Option<usize>
    ensures found { result ≡ search_by R.borne number records.now }
    ensures within { IfSome result (λ index. index < length records.now) }
{
    if number == 0 {
        return None;
    }
    place_of(records, number)
}
