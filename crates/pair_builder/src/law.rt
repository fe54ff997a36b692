// What holds of every two-byte table that unrolls shortest lists, and of both images of an automaton.
ghost use Rattle.std.specs.Prelude.{◌≡◌, ℕ, ◌<◌};
ghost use Rattle.automaton.specs.Runs.{Dfa};
ghost use Rattle.builder.specs.Build.{OverShortest};
ghost use Rattle.builder.specs.Lists.{code_of};
ghost use Rattle.image.specs.Format.{Parts as OneParts};
ghost use Rattle.pair_image.specs.Format.{Parts};
ghost use Rattle.pairs.specs.Carries.{Carries};
ghost use Rattle.pair_builder.specs.Build.{OverChosen};
ghost use Rattle.pair_builder.specs.Unrolled.{Choice, Chosen, pair_table};

/// Whichever shortest lists are chosen, the table over them, with the closing entries of its roots unrolled, carries the
/// automaton.
pub fn unrolled_tables_carry()
    ensures { (a : Dfa) (p : Choice) → ((s b : ℕ) → s < a.states → b < 256 → a.next s b <
        a.states) → Chosen a p → Carries a (code_of a) (pair_table a p) }
{}

/// Both images that are built of one automaton have the same code width and the same codes.
pub fn built_images_agree()
    ensures { (a : Dfa) (p : Parts) (q : OneParts) → OverChosen a p → OverShortest a q →
        (p.width ≡ q.width) × (p.codes ≡ q.codes) }
{}
