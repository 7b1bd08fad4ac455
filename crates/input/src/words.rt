// A text cut in two at a letter, and a number that it says.
ghost use Rattle.std.specs.Prelude.{◌≡◌, ℕ, ◌%◌, ◌^◌, ◌<◌, MatchOption};
ghost use Rattle.input.specs.Words.{Lacks, IsCut, decimal_of};

// What stands before the first such letter, and what behind it.
pub fn split_once(text: &[u8], letter: u8) -> Option<(&[u8], &[u8])>
    ensures { MatchOption result (Lacks letter text.now) (λ p. IsCut letter text.now p.0.now p.1.now) }
{
    let at = text.iter().position(|b| *b == letter)?;
    Some((&text[..at], &text[at + 1..]))
}

// The decimal number that letters say, modulo 2 to the 32, where `value` says what each of them is worth.
pub fn number<F: Fn(u8) -> u8>(letters: &[u8], value: F) -> u32
    requires { F.IsAlwaysCallable value }
    ensures { (h : ℕ → ℕ) → ((letter worth : ℕ) → letter < 256 → F.post value letter worth → worth ≡ h letter) → result ≡ decimal_of h letters.now % 2 ^ 32 }
{
    let mut n = 0u32;
    for letter in letters {
        n = n.wrapping_mul(10).wrapping_add(u32::from(value(*letter)));
    }
    n
}
