//! The size of a value is stated three times, and each statement says the same.

ghost use Rattle.jz_run_laws.specs.OneSize.{ExpressionSizes, ExpressionsSay};
ghost use Rattle.jz_run_laws.specs.OneSize.{LeftSizes, AssignmentSizes, IntrinsicSizes};
ghost use Rattle.jz_run_laws.specs.Rows.{ClassSizes, ResultSizes, PlaceSizes};
ghost use Rattle.jz_run_laws.specs.Values.{ValuesInPlaces};

/// Evaluation gives an expression by itself the size that typing finds, wherever it has a type.
pub fn expressions_have_one_size()
    ensures { ExpressionSizes }
{}

/// It gives it a size exactly where the expression says that size.
pub fn expressions_say_their_size()
    ensures { ExpressionsSay }
{}

/// The same of a left side that is no array as a whole.
pub fn left_sides_have_one_size()
    ensures { LeftSizes }
{}

/// An assignment is done at the size that typing finds: that of the first left side that has one,
/// else that of the value, which with an operation is the left side and the value in one.
pub fn assignments_have_one_size()
    ensures { AssignmentSizes }
{}

/// An intrinsic for which typing finds a size is done at that size. LEA and SETcc have one of their
/// own.
pub fn intrinsics_have_one_size()
    ensures { IntrinsicSizes }
{}

/// Where variables hold values of their kinds, and an expression that is well typed in a place is
/// evaluated at the size of that place, it is stuck or has a value of the place: of a word, a word
/// of that size or a whole number.
pub fn values_are_of_their_places()
    ensures { ValuesInPlaces }
{}

/// The size that a row of the pattern table sees of an operand or a result is the one that typing
/// finds, and that of the place where the operand is well typed.
pub fn rows_see_that_size()
    ensures operands { ClassSizes }
    ensures results { ResultSizes }
    ensures places { PlaceSizes }
{}
