// Arguments by keyword.
ghost use Rattle.std.specs.Prelude.{◌≡◌};
ghost use Rattle.py_frames.specs.Functions.{is_given};

use crate::request::NamedVal;

/// Whether an argument is given by this keyword.
#[tactic(auto, using(crate::proofs::KeywordLaws::given_rules))]
pub fn is_given(name: &str, keywords: &[NamedVal]) -> bool
    ensures { result ≡ is_given name.now keywords.now }
{
    for x in keywords {
        if x.name.is(name) {
            return true;
        }
    }
    false
}
