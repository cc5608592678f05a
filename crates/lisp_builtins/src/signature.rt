ghost use Rattle.std.specs.Prelude.{◌≡◌};
ghost use Rattle.lisp_builtins.specs.Signatures.{signature_of};

use crate::Op;
use lisp_numbers::Relation;

/// What a function takes, and what it makes of that.
#[derive(Clone, Copy)]
pub enum Signature {
    /// Integers, any number of them.
    Integers(Total),
    /// Integers, one or more.
    SomeIntegers(Several),
    TwoIntegers(Pair),
    OneInteger(Single),
    /// A value of any kind.
    OneValue(Any),
    TwoValues(Both),
    /// Values, any number of them: they become a list.
    Values,
    /// Lists, any number of them: they become one list.
    Lists,
    ValueAndList(Joining),
    IndexAndList(Behind),
    OneList(Part),
    /// A list or a string: its length.
    OneSequence,
    /// A list or a string, and where the part begins and maybe ends.
    SequenceAndBounds,
    /// A string or a symbol, which stands for its name.
    OneName(Naming),
    /// Two of these: whether they are equal.
    TwoNames,
    /// A symbol: its name.
    OneSymbol,
    /// A type of conditions, and maybe a control text with its arguments, each behind its keyword.
    NewCondition,
}

#[derive(Clone, Copy)]
pub enum Total {
    Sum,
    Product,
}

#[derive(Clone, Copy)]
pub enum Several {
    Difference,
    Least,
    Greatest,
    Compare(Relation),
}

#[derive(Clone, Copy)]
pub enum Pair {
    Quotient,
    Floor,
    Modulo,
    Truncate,
    Remainder,
    Differ,
}

#[derive(Clone, Copy)]
pub enum Single {
    Absolute,
    Successor,
    Predecessor,
    IsZero,
    IsPositive,
    IsNegative,
    IsEven,
    IsOdd,
}

#[derive(Clone, Copy)]
pub enum Any {
    IsNil,
    IsAtom,
    IsCons,
    IsList,
    IsSymbol,
    IsString,
    IsInteger,
    IsKeyword,
    /// The user text without escape.
    Princ,
    /// The user text with escape.
    Prin1,
    TypeOf,
    Identity,
}

#[derive(Clone, Copy)]
pub enum Both {
    AreSame,
    IsOfType,
}

#[derive(Clone, Copy)]
pub enum Joining {
    Cons,
    Member,
    Assoc,
}

#[derive(Clone, Copy)]
pub enum Behind {
    Item,
    Rest,
}

#[derive(Clone, Copy)]
pub enum Part {
    /// The item at this place, counted from 0.
    Item(usize),
    /// What stands behind the first item.
    Rest,
    /// The list of the last item.
    Last,
    Reverse,
}

#[derive(Clone, Copy)]
pub enum Naming {
    Itself,
    Upcase,
    Downcase,
}

/// The signature of a function.
pub fn signature_of(op: Op) -> Signature
    ensures { result ≡ signature_of op }
{
    match op {
        Op::Plus => Signature::Integers(Total::Sum),
        Op::Times => Signature::Integers(Total::Product),
        Op::Minus => Signature::SomeIntegers(Several::Difference),
        Op::Divide => Signature::TwoIntegers(Pair::Quotient),
        Op::Floor => Signature::TwoIntegers(Pair::Floor),
        Op::Mod => Signature::TwoIntegers(Pair::Modulo),
        Op::Truncate => Signature::TwoIntegers(Pair::Truncate),
        Op::Rem => Signature::TwoIntegers(Pair::Remainder),
        Op::Abs => Signature::OneInteger(Single::Absolute),
        Op::OnePlus => Signature::OneInteger(Single::Successor),
        Op::OneMinus => Signature::OneInteger(Single::Predecessor),
        Op::Min => Signature::SomeIntegers(Several::Least),
        Op::Max => Signature::SomeIntegers(Several::Greatest),
        Op::NumbersEqual => Signature::SomeIntegers(Several::Compare(Relation::Equal)),
        Op::Less => Signature::SomeIntegers(Several::Compare(Relation::Less)),
        Op::Greater => Signature::SomeIntegers(Several::Compare(Relation::Greater)),
        Op::AtMost => Signature::SomeIntegers(Several::Compare(Relation::AtMost)),
        Op::AtLeast => Signature::SomeIntegers(Several::Compare(Relation::AtLeast)),
        Op::NumbersDiffer => Signature::TwoIntegers(Pair::Differ),
        Op::Zerop => Signature::OneInteger(Single::IsZero),
        Op::Plusp => Signature::OneInteger(Single::IsPositive),
        Op::Minusp => Signature::OneInteger(Single::IsNegative),
        Op::Evenp => Signature::OneInteger(Single::IsEven),
        Op::Oddp => Signature::OneInteger(Single::IsOdd),
        Op::Null => Signature::OneValue(Any::IsNil),
        Op::Not => Signature::OneValue(Any::IsNil),
        Op::Eq => Signature::TwoValues(Both::AreSame),
        Op::Eql => Signature::TwoValues(Both::AreSame),
        Op::Equal => Signature::TwoValues(Both::AreSame),
        Op::Atom => Signature::OneValue(Any::IsAtom),
        Op::Consp => Signature::OneValue(Any::IsCons),
        Op::Listp => Signature::OneValue(Any::IsList),
        Op::Symbolp => Signature::OneValue(Any::IsSymbol),
        Op::Stringp => Signature::OneValue(Any::IsString),
        Op::Integerp => Signature::OneValue(Any::IsInteger),
        Op::Keywordp => Signature::OneValue(Any::IsKeyword),
        Op::List => Signature::Values,
        Op::Append => Signature::Lists,
        Op::Cons => Signature::ValueAndList(Joining::Cons),
        Op::Car => Signature::OneList(Part::Item(0)),
        Op::Cdr => Signature::OneList(Part::Rest),
        Op::First => Signature::OneList(Part::Item(0)),
        Op::Rest => Signature::OneList(Part::Rest),
        Op::Second => Signature::OneList(Part::Item(1)),
        Op::Third => Signature::OneList(Part::Item(2)),
        Op::Nth => Signature::IndexAndList(Behind::Item),
        Op::Nthcdr => Signature::IndexAndList(Behind::Rest),
        Op::Last => Signature::OneList(Part::Last),
        Op::Reverse => Signature::OneList(Part::Reverse),
        Op::Length => Signature::OneSequence,
        Op::Member => Signature::ValueAndList(Joining::Member),
        Op::Assoc => Signature::ValueAndList(Joining::Assoc),
        Op::Subseq => Signature::SequenceAndBounds,
        Op::StringEqual => Signature::TwoNames,
        Op::StringUpcase => Signature::OneName(Naming::Upcase),
        Op::StringDowncase => Signature::OneName(Naming::Downcase),
        Op::PrincToString => Signature::OneValue(Any::Princ),
        Op::Prin1ToString => Signature::OneValue(Any::Prin1),
        Op::SymbolName => Signature::OneSymbol,
        Op::String => Signature::OneName(Naming::Itself),
        Op::TypeOf => Signature::OneValue(Any::TypeOf),
        Op::Typep => Signature::TwoValues(Both::IsOfType),
        Op::Identity => Signature::OneValue(Any::Identity),
        Op::MakeCondition => Signature::NewCondition,
    }
}
