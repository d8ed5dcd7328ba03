//! Laws of two streams that are printed, and of the colours: each function does nothing, and its contract is the law.

ghost use Rattle.std.specs.Prelude.{ℕ, ◌≡◌, ◌≢◌, ◌<◌, List, [], ◌∷◌, ◌++◌, codes, true, false};
ghost use Rattle.std.specs.List.{AllByRecursion};
ghost use Rattle.pg_wire.specs.Link.{last_count};
ghost use Rattle.pg_wire.specs.Sending.{Sends};
ghost use Rattle.pgpipe_show.specs.declared.color.part.LinePart.{LinePart};
ghost use Rattle.pgpipe_show.specs.declared.color.part.LinePart.TheVariants.{Start};
ghost use Rattle.pgpipe_show.specs.Colored.{Coloring, Takes};
ghost use Rattle.pgpipe_show.specs.ColoredPart.{colored};
ghost use Rattle.pgpipe_show.specs.ColoredText.{FollowsWord, IsWord};
ghost use Rattle.pgpipe_show.specs.ColoredText.{error_line, named_line, without_escapes};
ghost use Rattle.pgpipe_show.specs.Laws.{OneOrder};

use pg_wire::Sink;

/// What the client and the server sent is printed in only one order.
pub fn one_order()
    ensures { OneOrder }
{}

/// What a line comes to, and that the next one begins afresh.
pub fn a_line()
    ensures error { (rest more : List ℕ) → FollowsWord rest
        → colored Start (codes "ErrorResponse" ++ rest ++ 10 ∷ more)
        ≡ error_line rest ++ 10 ∷ colored Start more }
    ensures other { (word rest more : List ℕ) → IsWord word → word ≢ []
        → word ≢ codes "ErrorResponse" → FollowsWord rest
        → colored Start (word ++ rest ++ 10 ∷ more)
        ≡ named_line word rest ++ 10 ∷ colored Start more }
{}

/// Only escapes are added to a text that has none. Without them it is as it was.
pub fn nothing_else()
    ensures { (part : LinePart) (text : List ℕ) → AllByRecursion (λ b. b ≢ 27) text
        → without_escapes false (colored part text) ≡ text }
{}

/// However a text came in calls, the sink behind took its coloured form, where no call failed. Once the count of failures has its last value, it
/// can't show a further one.
pub fn whole_text<K: Sink>()
    ensures { (old new : Coloring K) (text : List ℕ) → old.on ≡ true
        → K.failures old.inner < last_count
        → Sends (Takes K.takes K.failures) (λ c. K.failures c.inner) old text new
        → Sends K.takes K.failures old.inner (colored old.part text) new.inner }
{}
