//! What holds of every text: the items that come one after another are all lines, words or tokens, and they stand in
//! order without overlap. `specs/Left` and `specs/Stream` have the statements on which items come, and `specs/Order`
//! and `specs/TokenOrder` those on where they stand.
ghost use Rattle.bc_lex.specs.Left.{NextLineIsFirst, NextWordIsFirst, AllWordsAreLeft, NextPlainIsFirst, AllPlainAreLeft};
ghost use Rattle.bc_lex.specs.Order.{LinesStandInOrder, LinesEnd, WordsStandInOrder, WordsEnd, WordsBreak, BreaksAgain, PlainStandInOrder, PlainEnd};
ghost use Rattle.bc_lex.specs.Stream.{NextTokenIsFirst, AllTokensAreLeft, StreamIsTokens};
ghost use Rattle.bc_lex.specs.TokenOrder.{TokensStandInOrder, TokensEnd, TokensBreak, TokensBreakAgain};

/// The lines that come one after another are the lines of the text.
pub fn lines_law()
    ensures { NextLineIsFirst }
{}

/// The words that come one after another are the words of the line.
pub fn words_law()
    ensures next { NextWordIsFirst }
    ensures all { AllWordsAreLeft }
{}

/// Lines stand in order and do not overlap, and between them stands an LF; no line comes exactly at the end of the text.
pub fn line_order_law()
    ensures order { LinesStandInOrder }
    ensures end { LinesEnd }
{}

/// Words stand in order and do not overlap. Before a word stand blanks and comments, and before its number its letter and
/// blanks. No word comes exactly at the end of the line's words, and bytes that begin no word are answered again.
pub fn word_order_law()
    ensures order { WordsStandInOrder }
    ensures end { WordsEnd }
    ensures bad { WordsBreak }
    ensures again { BreaksAgain }
{}

/// The words between blanks that come one after another are the words of the line.
pub fn plain_words_law()
    ensures next { NextPlainIsFirst }
    ensures all { AllPlainAreLeft }
{}

/// The words between blanks stand in order, whole, and do not overlap, and before a word stand blanks. No word comes exactly
/// at the end of the line's words, which is at a `#` or behind the line.
pub fn plain_order_law()
    ensures order { PlainStandInOrder }
    ensures end { PlainEnd }
{}

/// The tokens that come one after another are the tokens of the text.
pub fn tokens_law()
    ensures next { NextTokenIsFirst }
    ensures all { AllTokensAreLeft }
    ensures texts { StreamIsTokens }
{}

/// Tokens stand in order and do not overlap, and between them stand blanks and comments alone. No token comes exactly where
/// nothing else is left, and bytes that begin no token are answered again.
pub fn token_order_law()
    ensures order { TokensStandInOrder }
    ensures end { TokensEnd }
    ensures bad { TokensBreak }
    ensures again { TokensBreakAgain }
{}
