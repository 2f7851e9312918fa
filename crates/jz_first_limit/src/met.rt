//! How far a walk has come: how many statements it has met, or the limit that it passes.

ghost use Rattle.std.specs.Prelude.{◌≡◌, ◌≤◌, ◌<◌, ◌+◌, ◌-◌, ◌∷◌, [], replicate, MatchOption};
ghost use Rattle.jz_limits.specs.Limits.{most_statements, one};
ghost use Rattle.jz_first_limit.specs.InnerMet.{MeetsSteps};

use jz_limits::Limit;

/// How many statements there may be.
const MOST_STATEMENTS: usize = 65_536;

/// How many statements were met, all within the limits; or the first limit that is passed.
#[derive(Clone, Copy)]
pub enum Met {
    Within(usize),
    Passed(Limit),
}

/// One more statement.
pub fn one_more(count: usize) -> Met
    requires { count ≤ most_statements }
    ensures { MeetsSteps count (one ∷ []) result }
{
    if count >= MOST_STATEMENTS {
        Met::Passed(Limit::Expand)
    } else {
        Met::Within(count + 1)
    }
}

/// A sum of statements, where there may be so many.
fn sum_within(count: usize, more: usize) -> Option<usize>
    requires { count ≤ most_statements }
    ensures { MatchOption result (most_statements < count + more)
        (λ sum. (sum ≡ count + more) × (sum ≤ most_statements)) }
{
    if more > MOST_STATEMENTS - count {
        None
    } else {
        Some(count + more)
    }
}

/// So many more.
pub fn several_more(count: usize, more: usize) -> Met
    requires { count ≤ most_statements }
    ensures { MeetsSteps count (replicate more one) result }
{
    match sum_within(count, more) {
        None => Met::Passed(Limit::Expand),
        Some(sum) => Met::Within(sum),
    }
}

/// One more for each argument and result past the eighth, counted together.
pub fn past_the_eighth(count: usize, args: usize, results: usize) -> Met
    requires { count ≤ most_statements }
    ensures { MeetsSteps count (replicate ((args + results) - 8) one) result }
{
    match several_more(count, args.saturating_sub(8)) {
        Met::Passed(limit) => Met::Passed(limit),
        Met::Within(count) => {
            let free = 8usize.saturating_sub(args);
            several_more(count, results.saturating_sub(free))
        }
    }
}
