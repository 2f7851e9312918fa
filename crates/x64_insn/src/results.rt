//! What products and quotients are in plain arithmetic.

ghost use Rattle.std.specs.Prelude.{◌≡◌, ◌<◌, ◌≤◌, ◌↔◌, ◌⊎◌, ℕ, ◌*◌, ◌/◌, Some, None, int_div};
ghost use Rattle.jz_words.specs.declared.size.Size.{Size};
ghost use Rattle.jz_words.specs.Sizes.{modulus, signed};
ghost use Rattle.jz_words.specs.Words.{signed_product};
ghost use Rattle.x64_insn.specs.declared.products.DoubleAnswer.{DoubleAnswer};
ghost use Rattle.x64_insn.specs.Products.{double_word, signed_double_word, product_answer, signed_product_answer, low_product_answer, quotient_answer, signed_quotient_answer, IsProduct, IsSignedProduct, IsQuotient, IsSignedQuotient, IsNoWord, MarksOverflow};

/// The high and the low word of MUL make the product.
pub fn product_is_whole()
    ensures { (s : Size) (a b : ℕ) → IsProduct s a b (product_answer s a b) }
{}

/// The high and the low word of IMUL make the signed product.
pub fn signed_product_is_whole()
    ensures { (s : Size) (a b : ℕ) → a < modulus s → b < modulus s
        → IsSignedProduct s a b (signed_product_answer s a b) }
{}

/// MUL sets OF and CF exactly where no word holds the product.
pub fn product_marks_overflow()
    ensures { (s : Size) (a b : ℕ)
        → MarksOverflow (product_answer s a b).flags (modulus s ≤ a * b) }
{}

/// IMUL, with one word of the result or with both, sets OF and CF exactly where no signed word is
/// the product.
pub fn signed_product_marks_overflow()
    ensures both { (s : Size) (a b : ℕ)
        → MarksOverflow (signed_product_answer s a b).flags (IsNoWord s (signed_product s a b)) }
    ensures low { (s : Size) (a b : ℕ)
        → MarksOverflow (low_product_answer s a b).flags (IsNoWord s (signed_product s a b)) }
{}

/// The one word of an IMUL is the low one of both.
pub fn low_product_is_low()
    ensures { (s : Size) (a b : ℕ)
        → (low_product_answer s a b).value ≡ (signed_product_answer s a b).low }
{}

/// DIV divides: the quotient times the divisor, and a remainder below it, make what is divided.
pub fn quotient_divides()
    ensures { (s : Size) (high low d : ℕ) (r : DoubleAnswer)
        → quotient_answer s high low d ≡ Some r → IsQuotient s high low d r }
{}

/// DIV has no result exactly where the divisor is 0, or the quotient is larger than each word.
pub fn quotient_is_missed()
    ensures { (s : Size) (high low d : ℕ)
        → ((quotient_answer s high low d ≡ None)
        ↔ ((d ≡ 0) ⊎ (modulus s ≤ double_word s high low / d))) }
{}

/// IDIV divides: the quotient times the divisor, and a remainder nearer to 0, make what is divided.
pub fn signed_quotient_divides()
    ensures { (s : Size) (high low d : ℕ) (r : DoubleAnswer) → d < modulus s
        → signed_quotient_answer s high low d ≡ Some r → IsSignedQuotient s high low d r }
{}

/// IDIV has no result exactly where the divisor is 0, or no word stands for the quotient, which is
/// rounded towards 0.
pub fn signed_quotient_is_missed()
    ensures { (s : Size) (high low d : ℕ)
        → ((signed_quotient_answer s high low d ≡ None)
        ↔ ((d ≡ 0) ⊎ IsNoWord s (int_div (signed_double_word s high low) (signed s d)))) }
{}
