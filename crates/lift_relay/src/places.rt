//! Values that are taken out of their places for a while.

ghost use Rattle.std.specs.Prelude.{◌≡◌};

use core::mem::replace_with;

/// Takes both values out of their places for the work, puts back what it gives, and passes on its
/// answer. What else is given goes to it.
pub(crate) fn with_both<A, B, X, R, W: FnOnce(B, (A, X)) -> (B, (A, R))>(
    a: &mut A,
    b: &mut B,
    x: X,
    work: W,
) -> R
    requires { W.pre work b.old (a.old, x) }
    ensures { W.post work b.old (a.old, x) (b.new, (a.new, result)) }
{
    let (b, answer) = replace_with(
        a,
        (b, x, work),
        |a: A, lent: (&mut B, X, W)| -> (A, (&mut B, R))
            requires { W.pre lent.2 lent.0.now (a, lent.1) }
            ensures done { W.post lent.entry.2 lent.entry.0.now (a, lent.entry.1)
                (result.1.0.now, (result.0, result.1.1)) }
            ensures same { result.1.0.ghost_name ≡ lent.entry.0.ghost_name }
        {
            let (place, x, work) = lent;
            let (a, answer) = replace_with(place, (a, x), work);
            (a, (place, answer))
        },
    );
    let _same = &*b;
    answer
}
