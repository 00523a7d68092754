// Where a text is that ends.
ghost use Rattle.std.specs.Prelude.{◌≡◌};
ghost use Rattle.solver_scan.specs.Places.{judged_place, end_place};

use crate::{Place, Verdict};

// No `s` line, SATISFIABLE without the 0, or another verdict with a `v` line: 9.
#[tactic(auto, unfolding(crate::specs::Places::judged_place))]
pub fn judged(v: Verdict, listed: bool, closed: bool) -> Place
    ensures { result ≡ judged_place v listed closed }
{
    match v {
        Verdict::Unstated => Place::BadForm,
        Verdict::Satisfiable => if closed { Place::Ended } else { Place::BadForm },
        Verdict::Unsatisfiable => if listed { Place::BadForm } else { Place::Ended },
        Verdict::Unknown => if listed { Place::BadForm } else { Place::Ended },
    }
}

// `fine` is where a text is that may end here.
#[tactic(auto, unfolding(crate::specs::Places::end_place))]
pub fn end_place(place: Place, fine: Place, spelt: bool) -> Place
    ensures { result ≡ end_place place fine spelt }
{
    match place {
        Place::Start => fine,
        Place::Comment => fine,
        Place::AfterS => Place::BadForm,
        Place::BeforeWord => Place::BadForm,
        Place::Word => if spelt { fine } else { Place::BadForm },
        Place::AfterWord => fine,
        Place::AfterToken => fine,
        Place::BeforeToken => fine,
        Place::AfterMinus => Place::BadForm,
        Place::Digits => fine,
        Place::Ended => Place::Ended,
        Place::BadForm => Place::BadForm,
        Place::BadLiteral => Place::BadLiteral,
    }
}
