ghost use Rattle.std.specs.Prelude.{◌≡◌};
ghost use Rattle.lisp_numbers.specs.Range.{ranged, result_of, from_left, sum_of, product_of, difference_of};

use crate::Computed;

#[derive(Clone, Copy)]
enum Operation {
    Add,
    Subtract,
    Multiply,
}

fn apply(operation: Operation, a: i64, b: i64) -> Computed
    ensures { result ≡ ranged (result_of operation a b) }
{
    let exact = match operation {
        Operation::Add => a.checked_add(b),
        Operation::Subtract => a.checked_sub(b),
        Operation::Multiply => a.checked_mul(b),
    };
    match exact {
        Some(number) => Computed::Number(number),
        None => Computed::OutOfRange,
    }
}

#[tactic(auto, using(crate::proofs::RangeLemmas::stepped))]
fn from_left(operation: Operation, start: i64, numbers: &[i64]) -> Computed
    ensures { result ≡ from_left (result_of operation) start numbers.now }
{
    let mut so_far = start;
    let mut rest = numbers;
    while let [next, more @ ..] = rest {
        match apply(operation, so_far, *next) {
            Computed::Number(number) => so_far = number,
            other => return other,
        }
        rest = more;
    }
    Computed::Number(so_far)
}

/// The sum, 0 of no numbers. Each result on the way has to be in range too.
pub fn sum(numbers: &[i64]) -> Computed
    ensures { result ≡ sum_of numbers.now }
{
    from_left(Operation::Add, 0, numbers)
}

/// The product, 1 of no numbers. Each result on the way has to be in range too.
pub fn product(numbers: &[i64]) -> Computed
    ensures { result ≡ product_of numbers.now }
{
    from_left(Operation::Multiply, 1, numbers)
}

/// The first number less the others, or its negation where there are none.
pub fn difference(first: i64, others: &[i64]) -> Computed
    ensures { result ≡ difference_of first others.now }
{
    if others.is_empty() {
        apply(Operation::Subtract, 0, first)
    } else {
        from_left(Operation::Subtract, first, others)
    }
}
