//! The next line of a text that has words. Lines without words are passed over.
ghost use Rattle.std.specs.Prelude.{◌≡◌, ◌≤◌, ◌<◌, ◌^◌, [], length, IfSome, IfNone};
ghost use Rattle.bc_lex.specs.Left.{lines_left};
ghost use Rattle.bc_off.specs.Left.{rows_left, row_then, end_left, IsRowStart};

use bc_lex::{Lines, Words};

/// The words of the next line that has words; `None` exactly where no such line is left.
pub fn next_row<'a>(lines: &mut Lines<'a>) -> Option<Words<'a>>
    requires { length lines.old.text < 2 ^ 32 }
    ensures row { rows_left lines.old ≡ row_then result (rows_left lines.new) }
    ensures start { IfSome result (λ p. IsRowStart (length lines.old.text) p) }
    ensures last { IfNone result (lines_left lines.new ≡ []) }
    ensures text { lines.new.text ≡ lines.old.text }
    ensures end { end_left lines.new ≡ end_left lines.old }
{
    while let Some(line) = lines.next() {
        let words = Words::new(line);
        if !words.is_ended() {
            return Some(words);
        }
    }
    None
}
