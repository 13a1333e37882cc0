// Lamps: what a signal shows for the sections that are clear ahead of it.
#![tactic(auto)]

ghost use Rattle.std.specs.Prelude.{◌≡◌, ℕ};
ghost use Rattle.rules.specs.Aspects.{aspect_number, lamp_set_shows, cab_shows, NeverLower};
ghost use Rattle.rules.specs.declared.aspect.Aspect.{Aspect};
ghost use Rattle.std.proofs.Common.{rules};

use rules::aspect::{Aspect, LampSet};

// Any lamps. Asking takes them as they are: it turns nothing down and alters nothing.
pub trait Lamps {
    // The aspect for a count of clear sections ahead and their metres.
    ghost shows: { Self → ℕ → ℕ → Aspect };

    fn aspect(&self, clear: u32, metres: u32) -> Aspect
        ensures { result ≡ shows self.now clear metres };

    // Stop is shown exactly where no section is clear.
    ghost stops: { (lamps : Self) (metres : ℕ) → aspect_number (shows lamps 0 metres) ≡ 0 };

    ghost proceeds: { (lamps : Self) (clear metres : ℕ) → aspect_number (shows lamps clear metres) ≡ 0 → clear ≡ 0 };
}

// Lamp sets go by the count alone.
impl Lamps for LampSet {
    ghost shows = { λ lamps clear metres. lamp_set_shows lamps clear };

    ghost stops = { Prim.search rules };

    ghost proceeds = { Prim.search rules };

    fn aspect(&self, clear: u32, _metres: u32) -> Aspect
        ensures shown { result ≡ lamp_set_shows self.now clear }
        ensures never_lower { NeverLower (λ r m. lamp_set_shows self.now r) }
    {
        match (*self, clear) {
            (_, 0) => Aspect::Stop,
            (LampSet::Three | LampSet::Four, 1) => Aspect::Caution,
            (LampSet::Four, 2) => Aspect::Reduced,
            (LampSet::Five, 1) => Aspect::Restricted,
            (LampSet::Five, 2) => Aspect::Caution,
            (LampSet::Five, 3) => Aspect::Reduced,
            _ => Aspect::Clear,
        }
    }
}

// The cab signal goes by metres, once a section is clear.
#[derive(Clone, Copy, PartialEq, Eq, Debug)]
pub struct CabSignal;

impl Lamps for CabSignal {
    ghost shows = { λ lamps clear metres. cab_shows clear metres };

    ghost stops = { Prim.search rules };

    ghost proceeds = { Prim.search rules };

    fn aspect(&self, clear: u32, metres: u32) -> Aspect
        ensures shown { result ≡ cab_shows clear metres }
        ensures never_lower { NeverLower cab_shows }
    {
        match metres {
            _ if clear == 0 => Aspect::Stop,
            ..102 => Aspect::Restricted,
            102..=211 => Aspect::Caution,
            212..=451 => Aspect::Reduced,
            452.. => Aspect::Clear,
        }
    }
}
