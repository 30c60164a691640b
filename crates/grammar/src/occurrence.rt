// What a program does, step by step, in the order of its evaluation.
use std::fmt;
use tokens::kind::Name;

#[derive(Clone, Copy)]
pub enum Infix {
    Add,
    Subtract,
    Multiply,
    Divide,
    Remainder,
    Same,
    Less,
}

#[derive(Clone, Copy)]
pub enum Unary {
    Fst,
    Snd,
    Len,
    Range,
    Flat,
}

// What a scan or a reduction joins elements by.
#[derive(Clone, Copy)]
pub enum Operation {
    Sum,
    Max,
    Or,
    Lin,
    House,
}

// What an occurrence does. A fork and its join are apart; Bind, IfElse and EachFilter mark where the scope of a name,
// the second branch and the body begin. The parts of a type stand before what they belong to.
#[derive(Clone, Copy)]
pub enum What {
    Number(u32),
    True,
    False,
    Variable(Name),
    Bind(Name),
    LetEnd,
    IfFork,
    IfElse,
    IfJoin,
    EachFork(Name),
    EachFilter,
    EachJoin,
    Operate(Infix),
    Apply(Unary),
    Index,
    Group,
    Pair,
    List(usize),
    Empty,
    Part,
    Scan(Operation),
    Reduce(Operation),
    TypeInt,
    TypeBool,
    TypePair,
    TypeList,
    Parameter(Name),
    Result,
}

impl fmt::Display for What {
    fn fmt<W: fmt::Write>(&self, f: &mut fmt::Formatter<W>) -> fmt::Result {
        f.write_str(match self {
            What::Number(_) => "number",
            What::True => "true",
            What::False => "false",
            What::Variable(_) => "variable",
            What::Bind(_) => "bind",
            What::LetEnd => "let-end",
            What::IfFork => "if-fork",
            What::IfElse => "if-else",
            What::IfJoin => "if-join",
            What::EachFork(_) => "each-fork",
            What::EachFilter => "each-filter",
            What::EachJoin => "each-join",
            What::Operate(_) => "operate",
            What::Apply(_) => "apply",
            What::Index => "index",
            What::Group => "group",
            What::Pair => "pair",
            What::List(_) => "list",
            What::Empty => "empty",
            What::Part => "part",
            What::Scan(_) => "scan",
            What::Reduce(_) => "reduce",
            What::TypeInt => "type-int",
            What::TypeBool => "type-bool",
            What::TypePair => "type-pair",
            What::TypeList => "type-list",
            What::Parameter(_) => "parameter",
            What::Result => "result",
        })
    }
}

// An occurrence, with the place in the text of its node's own token.
#[derive(Clone, Copy)]
pub struct Occurrence {
    pub what: What,
    pub place: usize,
}
