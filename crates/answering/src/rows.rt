// Numbers in a row: what a rule makes of each.
ghost use Rattle.std.specs.Prelude.{◌≡◌, ◌≤◌, map, length, take};
ghost use Rattle.std.proofs.lemmas.List.Edits.{sets};

// Puts what a rule makes of each value of a row to the front of a slice; the rest of the slice is left as it was.
// Kept: by index: a `zip` of `iter_mut`, tried in `words::hex`, did not close: std says nothing of the elements behind it.
pub fn put_made<S: Copy, T: Copy, F: Fn(S) -> T>(row: &[S], made: &mut [T], rule: F)
    requires { (length row.now ≤ length made.old) × F.IsAlwaysCallable rule }
    ensures front { (g : S → T) → ((x : S) (y : T) → F.post rule x y → y ≡ g x) → take (length row.now) made.new ≡ map g row.now }
    ensures whole { (g : S → T) → ((x : S) (y : T) → F.post rule x y → y ≡ g x) → made.new ≡ sets made.old 0 (map g row.now) }
{
    for (i, &x) in row.iter().enumerate() {
        made[i] = rule(x);
    }
}
