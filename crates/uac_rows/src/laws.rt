// A law of scripts, as the contract of a function that does nothing.
ghost use Rattle.std.specs.Prelude.{◌≡◌, ℕ, List, [], ◌∷◌, ◌++◌, Result};
ghost use Rattle.uac_script.specs.Phrase.{Phrase};
ghost use Rattle.uac_rows.specs.BusWorld.{BusWorld};
ghost use Rattle.uac_rows.specs.After.{after, with_one_more};

/// One more line after others is done in the world that they leave, and prints after them; after a refused line nothing is done.
/// So a bus that stands for the world after some lines stands, once it has done one more, for the world after all of them.
#[tactic(auto, using(crate::proofs::AfterLemmas::after_one_more))]
pub fn one_more_line()
    ensures { (saids : List (Result Phrase ℕ)) (said : Result Phrase ℕ) (w : BusWorld)
        → after (saids ++ said ∷ []) w ≡ with_one_more said (after saids w) }
{}
