//! The operand stack.

ghost use Rattle.std.specs.Prelude.{◌≡◌, ◌≤◌, ◌<◌, ◌+◌, [], ◌∷◌, length, reverse, vec_len, vec_capacity, IfSome, IfNone};

/// Puts a word on the operands, which have room for it.
pub fn put(operands: &mut Vec<i32>, word: i32)
    requires { vec_len operands.old < vec_capacity operands.old }
    ensures items { reverse operands.new.items ≡ word ∷ reverse operands.old.items }
    ensures room { vec_capacity operands.new ≡ vec_capacity operands.old }
{
    operands.push_reserved(word);
}

/// Takes the last operand. `None` exactly where there is none.
pub fn take(operands: &mut Vec<i32>) -> Option<i32>
    ensures some { IfSome result (λ x. reverse operands.old.items ≡ x ∷ reverse operands.new.items) }
    ensures none { IfNone result (reverse operands.old.items ≡ []) }
    ensures left { IfNone result (operands.new.items ≡ []) }
    ensures fewer { IfSome result (λ x. vec_len operands.new + 1 ≡ vec_len operands.old) }
    ensures room { vec_capacity operands.new ≡ vec_capacity operands.old }
{
    operands.pop()
}

/// Takes the last two operands, the lower one first. `None` exactly where there are fewer, and then none
/// is left.
pub fn take_two(operands: &mut Vec<i32>) -> Option<(i32, i32)>
    ensures some { IfSome result (λ p. reverse operands.old.items ≡ p.1 ∷ p.0 ∷ reverse operands.new.items) }
    ensures none { IfNone result (length (reverse operands.old.items) < 2) }
    ensures left { IfNone result (operands.new.items ≡ []) }
    ensures fewer { IfSome result (λ x. vec_len operands.new + 2 ≡ vec_len operands.old) }
    ensures room { vec_capacity operands.new ≡ vec_capacity operands.old }
{
    let y = take(operands)?;
    let x = take(operands)?;
    Some((x, y))
}

/// Takes the last three operands, the lowest first. `None` exactly where there are fewer, and then none
/// is left.
pub fn take_three(operands: &mut Vec<i32>) -> Option<(i32, i32, i32)>
    ensures some { IfSome result (λ p. reverse operands.old.items ≡ p.2 ∷ p.1 ∷ p.0 ∷ reverse operands.new.items) }
    ensures none { IfNone result (length (reverse operands.old.items) < 3) }
    ensures left { IfNone result (operands.new.items ≡ []) }
    ensures fewer { IfSome result (λ x. vec_len operands.new + 3 ≡ vec_len operands.old) }
    ensures room { vec_capacity operands.new ≡ vec_capacity operands.old }
{
    let z = take(operands)?;
    let (x, y) = take_two(operands)?;
    Some((x, y, z))
}

/// Takes the last four operands, the lowest first. `None` exactly where there are fewer, and then none is
/// left.
pub fn take_four(operands: &mut Vec<i32>) -> Option<(i32, i32, i32, i32)>
    ensures some { IfSome result (λ p. reverse operands.old.items ≡ p.3 ∷ p.2 ∷ p.1 ∷ p.0 ∷ reverse operands.new.items) }
    ensures none { IfNone result (length (reverse operands.old.items) < 4) }
    ensures left { IfNone result (operands.new.items ≡ []) }
    ensures fewer { IfSome result (λ x. vec_len operands.new + 4 ≡ vec_len operands.old) }
    ensures room { vec_capacity operands.new ≡ vec_capacity operands.old }
{
    let z = take(operands)?;
    let (v, x, y) = take_three(operands)?;
    Some((v, x, y, z))
}
