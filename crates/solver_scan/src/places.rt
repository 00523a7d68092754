// The next place, where a byte changes nothing else.
ghost use Rattle.std.specs.Prelude.{◌≡◌};
ghost use Rattle.solver_scan.specs.Places.{after_blank, after_line_feed};

use crate::words::spelt;
use crate::{Place, Verdict};

#[tactic(auto, unfolding(crate::specs::Places::after_blank))]
pub fn after_blank(place: Place, v: Verdict, n: u8) -> Place
    ensures { result ≡ after_blank place v n }
{
    match place {
        Place::Start => Place::BadForm,
        Place::Comment => Place::Comment,
        Place::AfterS => Place::BeforeWord,
        Place::BeforeWord => Place::BeforeWord,
        Place::Word => if spelt(v, n) {
            Place::AfterWord
        } else {
            Place::BadForm
        },
        Place::AfterWord => Place::AfterWord,
        Place::AfterToken => Place::BeforeToken,
        Place::BeforeToken => Place::BeforeToken,
        Place::AfterMinus => Place::BadForm,
        Place::Digits => Place::BeforeToken,
        Place::Ended => Place::BadForm,
        Place::BadForm => Place::BadForm,
        Place::BadLiteral => Place::BadLiteral,
    }
}

#[tactic(auto, unfolding(crate::specs::Places::after_line_feed))]
pub fn after_line_feed(place: Place, v: Verdict, n: u8) -> Place
    ensures { result ≡ after_line_feed place v n }
{
    match place {
        Place::Start => Place::Start,
        Place::Comment => Place::Start,
        Place::AfterS => Place::BadForm,
        Place::BeforeWord => Place::BadForm,
        Place::Word => if spelt(v, n) {
            Place::Start
        } else {
            Place::BadForm
        },
        Place::AfterWord => Place::Start,
        Place::AfterToken => Place::Start,
        Place::BeforeToken => Place::Start,
        Place::AfterMinus => Place::BadForm,
        Place::Digits => Place::Start,
        Place::Ended => Place::BadForm,
        Place::BadForm => Place::BadForm,
        Place::BadLiteral => Place::BadLiteral,
    }
}
