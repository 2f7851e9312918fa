//! What functions over variables have of the text.

ghost use Rattle.jz_signature.specs.Laws.{WordsHaveTheirSizes, StackIsOfTheText};

/// A parameter or a result that is in a variable of operations is a word, whose size is that of the
/// variable.
pub fn words_have_their_sizes()
    ensures { WordsHaveTheirSizes }
{}

/// The stack variables of an expanded function are those of the text with those of its calls, in
/// the order of the frame.
pub fn the_stack_is_that_of_the_text()
    ensures { StackIsOfTheText }
{}
