// The evaluable functors on integers of 128 bits (ISO/IEC 13211-1, 9.1 to 9.4).
ghost use Rattle.std.specs.Prelude.{◌≡◌, ◌<◌, ◌^◌, ◌*ℤ◌, pos, negsuc, Ok, int_div, int_rem};
ghost use Rattle.std.specs.Int.{w128, IsNonZero};
ghost use Rattle.builtin_table.specs.Arithmetic.{unary_named, binary_named, unary_value, binary_value, fault_name, fitting, divided, floor_div, int_mod, exact_div, shifted, down, power, reciprocal};
ghost use Rattle.builtin_table.specs.Primitives.{order_named, comparison_named, holds as holds_of};

use std::cmp::Ordering;

/// Why an evaluable functor has no value (ISO/IEC 13211-1, 7.12.2 g).
#[derive(Clone, Copy, Debug, Drop, PartialEq, Eq)]
pub enum Fault {
    /// The value is no integer of 128 bits.
    IntOverflow,
    /// The divisor is 0.
    ZeroDivisor,
    /// There is no such integer.
    Undefined,
}

/// An evaluable functor of one argument.
#[derive(Clone, Copy, Debug, Drop, PartialEq, Eq)]
pub enum Unary {
    /// `+X`.
    Plus,
    /// `-X`.
    Minus,
    /// `abs(X)`.
    Abs,
    /// `sign(X)`.
    Sign,
    /// `\X`.
    Complement,
}

/// An evaluable functor of two arguments.
#[derive(Clone, Copy, Debug, Drop, PartialEq, Eq)]
pub enum Binary {
    /// `X + Y`.
    Plus,
    /// `X - Y`.
    Minus,
    /// `X * Y`.
    Times,
    /// `X // Y`, rounded toward zero.
    Quotient,
    /// `X div Y`, rounded down.
    FloorQuotient,
    /// `X rem Y`, with the sign of X.
    Remainder,
    /// `X mod Y`, with the sign of Y.
    Modulus,
    /// `X / Y`, where it is exact.
    ExactQuotient,
    /// `min(X, Y)`.
    Min,
    /// `max(X, Y)`.
    Max,
    /// `X /\ Y`.
    And,
    /// `X \/ Y`.
    Or,
    /// `X << Y`.
    ShiftLeft,
    /// `X >> Y`.
    ShiftRight,
    /// `X ^ Y` and `X ** Y`.
    Power,
}

/// A relation between two things of which one may be less than the other.
#[derive(Clone, Copy, Debug, Drop, PartialEq, Eq)]
pub enum Relation {
    /// The same.
    Equal,
    /// Not the same.
    NotEqual,
    /// The first is less.
    Less,
    /// The first is less, or the same.
    LessOrEqual,
    /// The first is greater.
    Greater,
    /// The first is greater, or the same.
    GreaterOrEqual,
}

impl Fault {
    /// The fault's name in an error term.
    pub fn name(self) -> &'static str
        ensures { result.now ≡ fault_name self }
    {
        match self {
            Fault::IntOverflow => "int_overflow",
            Fault::ZeroDivisor => "zero_divisor",
            Fault::Undefined => "undefined",
        }
    }
}

impl Unary {
    /// The functor of this name; `None` where no evaluable functor of one argument has it.
    #[tactic(auto, unfolding(crate::specs::Arithmetic::unary_named))]
    pub fn named(name: &str) -> Option<Unary>
        ensures { result ≡ unary_named name.now }
    {
        match name {
            "+" => Some(Unary::Plus),
            "-" => Some(Unary::Minus),
            "abs" => Some(Unary::Abs),
            "sign" => Some(Unary::Sign),
            "\\" => Some(Unary::Complement),
            _ => None,
        }
    }

    /// Its value at this integer.
    #[tactic(auto, unfolding(crate::specs::Arithmetic::unary_value))]
    pub fn value(self, x: i128) -> Result<i128, Fault>
        ensures { result ≡ unary_value self x }
    {
        match self {
            Unary::Plus => Ok(x),
            Unary::Minus => x.checked_neg().ok_or(Fault::IntOverflow),
            Unary::Abs => x.checked_abs().ok_or(Fault::IntOverflow),
            Unary::Sign => Ok(x.signum()),
            Unary::Complement => Ok(!x),
        }
    }
}

impl Binary {
    /// The functor of this name; `None` where no evaluable functor of two arguments has it.
    #[tactic(auto, unfolding(crate::specs::Arithmetic::binary_named))]
    pub fn named(name: &str) -> Option<Binary>
        ensures { result ≡ binary_named name.now }
    {
        match name {
            "+" => Some(Binary::Plus),
            "-" => Some(Binary::Minus),
            "*" => Some(Binary::Times),
            "//" => Some(Binary::Quotient),
            "div" => Some(Binary::FloorQuotient),
            "rem" => Some(Binary::Remainder),
            "mod" => Some(Binary::Modulus),
            "/" => Some(Binary::ExactQuotient),
            "min" => Some(Binary::Min),
            "max" => Some(Binary::Max),
            "/\\" => Some(Binary::And),
            "\\/" => Some(Binary::Or),
            "<<" => Some(Binary::ShiftLeft),
            ">>" => Some(Binary::ShiftRight),
            "^" | "**" => Some(Binary::Power),
            _ => None,
        }
    }

    /// Its value at these integers.
    #[tactic(auto, unfolding(crate::specs::Arithmetic::binary_value))]
    pub fn value(self, x: i128, y: i128) -> Result<i128, Fault>
        ensures { result ≡ binary_value self x y }
    {
        match self {
            Binary::Plus => x.checked_add(y).ok_or(Fault::IntOverflow),
            Binary::Minus => x.checked_sub(y).ok_or(Fault::IntOverflow),
            Binary::Times => x.checked_mul(y).ok_or(Fault::IntOverflow),
            Binary::Quotient => quotient(x, y),
            Binary::FloorQuotient => floor_quotient(x, y),
            Binary::Remainder => remainder(x, y),
            Binary::Modulus => modulus(x, y),
            Binary::ExactQuotient => exact_quotient(x, y),
            Binary::Min => Ok(x.min(y)),
            Binary::Max => Ok(x.max(y)),
            Binary::And => Ok(x & y),
            Binary::Or => Ok(x | y),
            Binary::ShiftLeft => shift_left(x, y),
            Binary::ShiftRight => shift_right(x, y),
            Binary::Power => power_of(x, y),
        }
    }
}

// Rounded toward zero.
fn quotient(x: i128, y: i128) -> Result<i128, Fault>
    ensures { result ≡ divided y (fitting (int_div x y)) }
{
    if y == 0 {
        return Err(Fault::ZeroDivisor);
    }
    x.checked_div(y).ok_or(Fault::IntOverflow)
}

// Rounded down.
fn floor_quotient(x: i128, y: i128) -> Result<i128, Fault>
    ensures { result ≡ divided y (fitting (floor_div x y)) }
{
    if y == 0 {
        return Err(Fault::ZeroDivisor);
    }
    if x == 0 || (x < 0) == (y < 0) {
        return x.checked_div(y).ok_or(Fault::IntOverflow);
    }
    let whole = (x.unsigned_abs() - 1) / y.unsigned_abs();
    Ok(!(whole as i128))
}

// With the sign of x.
fn remainder(x: i128, y: i128) -> Result<i128, Fault>
    ensures { result ≡ divided y (Ok (int_rem x y)) }
{
    if y == 0 {
        return Err(Fault::ZeroDivisor);
    }
    Ok(x.wrapping_rem(y))
}

// With the sign of y.
fn modulus(x: i128, y: i128) -> Result<i128, Fault>
    ensures { result ≡ divided y (Ok (int_mod x y)) }
{
    if y == 0 {
        return Err(Fault::ZeroDivisor);
    }
    Ok(floor_remainder(x, y))
}

// What is left of x over y rounded down.
fn floor_remainder(x: i128, y: i128) -> i128
    requires { IsNonZero w128 y }
    ensures { result ≡ int_mod x y }
{
    let left = x.wrapping_rem(y);
    if left == 0 {
        return 0;
    }
    if (left < 0) == (y < 0) {
        left
    } else {
        left + y
    }
}

// Where nothing is left.
fn exact_quotient(x: i128, y: i128) -> Result<i128, Fault>
    ensures { result ≡ divided y (exact_div x y) }
{
    if remainder(x, y)? == 0 {
        quotient(x, y)
    } else {
        Err(Fault::Undefined)
    }
}

// By 0 to 127 bits, in two steps, since 2^127 is no integer of 128 bits.
fn shift_left(x: i128, y: i128) -> Result<i128, Fault>
    ensures { result ≡ shifted (λ n. fitting (x *ℤ pos (2 ^ n))) y }
{
    if y < 0 || 127 < y {
        return Err(Fault::Undefined);
    }
    let count = y as u32;
    let half = count / 2;
    match times_power(x, half) {
        Ok(part) => times_power(part, count - half),
        Err(fault) => Err(fault),
    }
}

// Times 2 to this power.
fn times_power(x: i128, count: u32) -> Result<i128, Fault>
    requires { count < 127 }
    ensures { result ≡ fitting (x *ℤ pos (2 ^ count)) }
{
    x.checked_mul(2i128.pow(count)).ok_or(Fault::IntOverflow)
}

// By 0 to 127 bits.
fn shift_right(x: i128, y: i128) -> Result<i128, Fault>
    ensures { result ≡ shifted (λ n. Ok (down x (2 ^ n))) y }
{
    if y < 0 || 127 < y {
        return Err(Fault::Undefined);
    }
    Ok(x >> y as u32)
}

// A power of an integer other than 1, 0 and -1 is no integer below exponent 0, and none of 128 bits
// above 127.
fn power_of(x: i128, y: i128) -> Result<i128, Fault>
    ensures { result ≡ power x y }
{
    if y == 0 || x == 1 {
        return Ok(1);
    }
    if x == -1 {
        return Ok(power_of_minus_one(y));
    }
    if y < 0 {
        return Err(Fault::Undefined);
    }
    if x == 0 {
        return Ok(0);
    }
    if y > 127 {
        return Err(Fault::IntOverflow);
    }
    x.checked_pow(y as u32).ok_or(Fault::IntOverflow)
}

fn power_of_minus_one(y: i128) -> i128
    ensures { Ok result ≡ power (negsuc 0) y }
{
    if y % 2 == 0 { 1 } else { -1 }
}

impl Relation {
    /// The relation of terms by the standard order that this name tests, as `@<`; `None` where none does.
    #[tactic(auto, unfolding(crate::specs::Primitives::order_named))]
    pub fn of_order(name: &str) -> Option<Relation>
        ensures { result ≡ order_named name.now }
    {
        match name {
            "==" => Some(Relation::Equal),
            "\\==" => Some(Relation::NotEqual),
            "@<" => Some(Relation::Less),
            "@=<" => Some(Relation::LessOrEqual),
            "@>" => Some(Relation::Greater),
            "@>=" => Some(Relation::GreaterOrEqual),
            _ => None,
        }
    }

    /// The relation of the values of expressions that this name tests, as `=<`; `None` where none does.
    #[tactic(auto, unfolding(crate::specs::Primitives::comparison_named))]
    pub fn of_values(name: &str) -> Option<Relation>
        ensures { result ≡ comparison_named name.now }
    {
        match name {
            "=:=" => Some(Relation::Equal),
            "=\\=" => Some(Relation::NotEqual),
            "<" => Some(Relation::Less),
            "=<" => Some(Relation::LessOrEqual),
            ">" => Some(Relation::Greater),
            ">=" => Some(Relation::GreaterOrEqual),
            _ => None,
        }
    }

    /// Whether it holds of two things of which the first compares so with the second.
    pub fn holds(self, found: Ordering) -> bool
        ensures { result ≡ holds_of self found }
    {
        match self {
            Relation::Equal => found.is_eq(),
            Relation::NotEqual => found.is_ne(),
            Relation::Less => found.is_lt(),
            Relation::LessOrEqual => found.is_le(),
            Relation::Greater => found.is_gt(),
            Relation::GreaterOrEqual => found.is_ge(),
        }
    }
}
