// What the shapes hold, with the parts from `first` up to `end`; the shapes of each kind, by variant, and where they begin; and what each class asks
// for. Written by tools/shapes.py from specs/.
use crate::Part::{Counted, OneOf};
use crate::{Allowed, Class, Count, Fields, Kind, Part, Row};

pub(crate) static PARTS: [Part; 57] = [
    OneOf(Class::ForInit),
    OneOf(Class::Condition),
    OneOf(Class::Expr),
    OneOf(Class::Statement),
    OneOf(Class::Expr),
    OneOf(Class::Expr),
    OneOf(Class::Expr),
    OneOf(Class::Qualifier),
    OneOf(Class::Type),
    Counted(Class::Identifier),
    OneOf(Class::Qualifier),
    OneOf(Class::Type),
    OneOf(Class::ParameterIdentifier),
    OneOf(Class::FullType),
    OneOf(Class::Array),
    OneOf(Class::Initializer),
    OneOf(Class::Qualifier),
    Counted(Class::Field),
    OneOf(Class::Identifier),
    OneOf(Class::Expr),
    OneOf(Class::Statement),
    OneOf(Class::Statement),
    OneOf(Class::ForInit),
    OneOf(Class::Condition),
    OneOf(Class::Statement),
    OneOf(Class::ForInit),
    OneOf(Class::Expr),
    OneOf(Class::Statement),
    OneOf(Class::Callee),
    Counted(Class::Expr),
    OneOf(Class::Base),
    OneOf(Class::Array),
    OneOf(Class::FullType),
    Counted(Class::Parameter),
    OneOf(Class::Single),
    Counted(Class::Declarator),
    OneOf(Class::FullType),
    OneOf(Class::Initializer),
    OneOf(Class::Identifier),
    OneOf(Class::Initializer),
    OneOf(Class::Precision),
    OneOf(Class::Type),
    OneOf(Class::Expr),
    Counted(Class::Statement),
    OneOf(Class::ForInit),
    OneOf(Class::Statement),
    OneOf(Class::Prototype),
    OneOf(Class::Compound),
    Counted(Class::Dimension),
    Counted(Class::Spec),
    Counted(Class::Type),
    Counted(Class::LayoutId),
    Counted(Class::Initializer),
    OneOf(Class::Declarators),
    OneOf(Class::Block),
    OneOf(Class::Declaration),
    Counted(Class::External),
];

const NOTHING: Row = Row {
    fields: Fields::Empty,
    count: Count::Unused,
    first: 0,
    end: 0,
};

const NAME: Row = Row {
    fields: Fields::Name,
    count: Count::Unused,
    first: 0,
    end: 0,
};

const INTEGER: Row = Row {
    fields: Fields::Integer,
    count: Count::Unused,
    first: 0,
    end: 0,
};

const FLOAT: Row = Row {
    fields: Fields::Float,
    count: Count::Unused,
    first: 0,
    end: 0,
};

const EXPR: Row = Row {
    fields: Fields::Empty,
    count: Count::Unused,
    first: 2,
    end: 3,
};

const EXPR_EXPR: Row = Row {
    fields: Fields::Empty,
    count: Count::Unused,
    first: 4,
    end: 6,
};

const EXPR_EXPR_EXPR: Row = Row {
    fields: Fields::Empty,
    count: Count::Unused,
    first: 4,
    end: 7,
};

const ANY_CALLEE_SEVERAL_EXPR: Row = Row {
    fields: Fields::Empty,
    count: Count::Any,
    first: 28,
    end: 30,
};

const NAME_EXPR: Row = Row {
    fields: Fields::Name,
    count: Count::Unused,
    first: 2,
    end: 3,
};

const BASE: Row = Row {
    fields: Fields::Empty,
    count: Count::Unused,
    first: 30,
    end: 31,
};

const BASE_ARRAY: Row = Row {
    fields: Fields::Empty,
    count: Count::Unused,
    first: 30,
    end: 32,
};

const ANY_SEVERAL_FIELD: Row = Row {
    fields: Fields::Empty,
    count: Count::Any,
    first: 17,
    end: 18,
};

const DECLARED_ANY_SEVERAL_FIELD: Row = Row {
    fields: Fields::Declared,
    count: Count::Any,
    first: 17,
    end: 18,
};

const POSITIVE_SEVERAL_DIMENSION: Row = Row {
    fields: Fields::Empty,
    count: Count::Positive,
    first: 48,
    end: 49,
};

const POSITIVE_TYPE_SEVERAL_IDENTIFIER: Row = Row {
    fields: Fields::Empty,
    count: Count::Positive,
    first: 8,
    end: 10,
};

const POSITIVE_QUALIFIER_TYPE_SEVERAL_IDENTIFIER: Row = Row {
    fields: Fields::Empty,
    count: Count::Positive,
    first: 7,
    end: 10,
};

const NAME_ARRAY: Row = Row {
    fields: Fields::Name,
    count: Count::Unused,
    first: 14,
    end: 15,
};

const POSITIVE_SEVERAL_SPEC: Row = Row {
    fields: Fields::Empty,
    count: Count::Positive,
    first: 49,
    end: 50,
};

const ANY_SEVERAL_TYPE: Row = Row {
    fields: Fields::Empty,
    count: Count::Any,
    first: 50,
    end: 51,
};

const POSITIVE_SEVERAL_LAYOUT_ID: Row = Row {
    fields: Fields::Empty,
    count: Count::Positive,
    first: 51,
    end: 52,
};

const TYPE: Row = Row {
    fields: Fields::Empty,
    count: Count::Unused,
    first: 8,
    end: 9,
};

const QUALIFIER_TYPE: Row = Row {
    fields: Fields::Empty,
    count: Count::Unused,
    first: 7,
    end: 9,
};

const DECLARED_ANY_FULL_TYPE_SEVERAL_PARAMETER: Row = Row {
    fields: Fields::Declared,
    count: Count::Any,
    first: 32,
    end: 34,
};

const TYPE_PARAMETER_IDENTIFIER: Row = Row {
    fields: Fields::Empty,
    count: Count::Unused,
    first: 11,
    end: 13,
};

const QUALIFIER_TYPE_PARAMETER_IDENTIFIER: Row = Row {
    fields: Fields::Empty,
    count: Count::Unused,
    first: 10,
    end: 13,
};

const ANY_SINGLE_SEVERAL_DECLARATOR: Row = Row {
    fields: Fields::Empty,
    count: Count::Any,
    first: 34,
    end: 36,
};

const FULL_TYPE: Row = Row {
    fields: Fields::Empty,
    count: Count::Unused,
    first: 13,
    end: 14,
};

const NAME_FULL_TYPE: Row = Row {
    fields: Fields::Name,
    count: Count::Unused,
    first: 13,
    end: 14,
};

const FULL_TYPE_ARRAY: Row = Row {
    fields: Fields::Empty,
    count: Count::Unused,
    first: 13,
    end: 15,
};

const NAME_FULL_TYPE_ARRAY: Row = Row {
    fields: Fields::Name,
    count: Count::Unused,
    first: 13,
    end: 15,
};

const FULL_TYPE_INITIALIZER: Row = Row {
    fields: Fields::Empty,
    count: Count::Unused,
    first: 36,
    end: 38,
};

const NAME_FULL_TYPE_INITIALIZER: Row = Row {
    fields: Fields::Name,
    count: Count::Unused,
    first: 36,
    end: 38,
};

const FULL_TYPE_ARRAY_INITIALIZER: Row = Row {
    fields: Fields::Empty,
    count: Count::Unused,
    first: 13,
    end: 16,
};

const NAME_FULL_TYPE_ARRAY_INITIALIZER: Row = Row {
    fields: Fields::Name,
    count: Count::Unused,
    first: 13,
    end: 16,
};

const IDENTIFIER: Row = Row {
    fields: Fields::Empty,
    count: Count::Unused,
    first: 18,
    end: 19,
};

const IDENTIFIER_INITIALIZER: Row = Row {
    fields: Fields::Empty,
    count: Count::Unused,
    first: 38,
    end: 40,
};

const POSITIVE_SEVERAL_INITIALIZER: Row = Row {
    fields: Fields::Empty,
    count: Count::Positive,
    first: 52,
    end: 53,
};

const NAME_ANY_QUALIFIER_SEVERAL_FIELD: Row = Row {
    fields: Fields::Name,
    count: Count::Any,
    first: 16,
    end: 18,
};

const NAME_ANY_QUALIFIER_SEVERAL_FIELD_IDENTIFIER: Row = Row {
    fields: Fields::Name,
    count: Count::Any,
    first: 16,
    end: 19,
};

const PROTOTYPE: Row = Row {
    fields: Fields::Empty,
    count: Count::Unused,
    first: 46,
    end: 47,
};

const DECLARATORS: Row = Row {
    fields: Fields::Empty,
    count: Count::Unused,
    first: 53,
    end: 54,
};

const PRECISION_TYPE: Row = Row {
    fields: Fields::Empty,
    count: Count::Unused,
    first: 40,
    end: 42,
};

const BLOCK: Row = Row {
    fields: Fields::Empty,
    count: Count::Unused,
    first: 54,
    end: 55,
};

const QUALIFIER: Row = Row {
    fields: Fields::Empty,
    count: Count::Unused,
    first: 7,
    end: 8,
};

const ANY_SEVERAL_STATEMENT: Row = Row {
    fields: Fields::Empty,
    count: Count::Any,
    first: 43,
    end: 44,
};

const EXPR_STATEMENT: Row = Row {
    fields: Fields::Empty,
    count: Count::Unused,
    first: 2,
    end: 4,
};

const EXPR_STATEMENT_STATEMENT: Row = Row {
    fields: Fields::Empty,
    count: Count::Unused,
    first: 19,
    end: 22,
};

const ANY_EXPR_SEVERAL_STATEMENT: Row = Row {
    fields: Fields::Empty,
    count: Count::Any,
    first: 42,
    end: 44,
};

const CONDITION_STATEMENT: Row = Row {
    fields: Fields::Empty,
    count: Count::Unused,
    first: 23,
    end: 25,
};

const STATEMENT_EXPR: Row = Row {
    fields: Fields::Empty,
    count: Count::Unused,
    first: 3,
    end: 5,
};

const FOR_INIT_STATEMENT: Row = Row {
    fields: Fields::Empty,
    count: Count::Unused,
    first: 44,
    end: 46,
};

const FOR_INIT_CONDITION_STATEMENT: Row = Row {
    fields: Fields::Empty,
    count: Count::Unused,
    first: 22,
    end: 25,
};

const FOR_INIT_EXPR_STATEMENT: Row = Row {
    fields: Fields::Empty,
    count: Count::Unused,
    first: 25,
    end: 28,
};

const FOR_INIT_CONDITION_EXPR_STATEMENT: Row = Row {
    fields: Fields::Empty,
    count: Count::Unused,
    first: 0,
    end: 4,
};

const DECLARATION: Row = Row {
    fields: Fields::Empty,
    count: Count::Unused,
    first: 55,
    end: 56,
};

const ANY_SEVERAL_EXTERNAL: Row = Row {
    fields: Fields::Empty,
    count: Count::Any,
    first: 56,
    end: 57,
};

const PROTOTYPE_COMPOUND: Row = Row {
    fields: Fields::Empty,
    count: Count::Unused,
    first: 46,
    end: 48,
};

pub(crate) static ROWS: [Row; 267] = [
    NOTHING,
    // 1
    NAME,
    // 2
    INTEGER,
    // 3
    INTEGER,
    // 4
    NOTHING,
    NOTHING,
    // 5
    FLOAT,
    // 6
    FLOAT,
    // 7
    EXPR,
    EXPR,
    EXPR,
    EXPR,
    EXPR,
    EXPR,
    // 8
    EXPR_EXPR,
    EXPR_EXPR,
    EXPR_EXPR,
    EXPR_EXPR,
    EXPR_EXPR,
    EXPR_EXPR,
    EXPR_EXPR,
    EXPR_EXPR,
    EXPR_EXPR,
    EXPR_EXPR,
    EXPR_EXPR,
    EXPR_EXPR,
    EXPR_EXPR,
    EXPR_EXPR,
    EXPR_EXPR,
    EXPR_EXPR,
    EXPR_EXPR,
    EXPR_EXPR,
    EXPR_EXPR,
    // 9
    EXPR_EXPR_EXPR,
    // 10
    EXPR_EXPR,
    EXPR_EXPR,
    EXPR_EXPR,
    EXPR_EXPR,
    EXPR_EXPR,
    EXPR_EXPR,
    EXPR_EXPR,
    EXPR_EXPR,
    EXPR_EXPR,
    EXPR_EXPR,
    EXPR_EXPR,
    // 11
    EXPR_EXPR,
    // 12
    ANY_CALLEE_SEVERAL_EXPR,
    // 13
    NAME_EXPR,
    // 14
    EXPR,
    // 15
    EXPR,
    // 16
    EXPR_EXPR,
    // 20
    BASE,
    BASE_ARRAY,
    // 21
    NOTHING,
    NOTHING,
    NOTHING,
    NOTHING,
    NOTHING,
    NOTHING,
    NOTHING,
    NOTHING,
    NOTHING,
    NOTHING,
    NOTHING,
    NOTHING,
    NOTHING,
    NOTHING,
    NOTHING,
    NOTHING,
    NOTHING,
    NOTHING,
    NOTHING,
    NOTHING,
    NOTHING,
    NOTHING,
    NOTHING,
    NOTHING,
    NOTHING,
    NOTHING,
    NOTHING,
    NOTHING,
    NOTHING,
    NOTHING,
    NOTHING,
    NOTHING,
    NOTHING,
    NOTHING,
    NOTHING,
    NOTHING,
    NOTHING,
    NOTHING,
    NOTHING,
    NOTHING,
    NOTHING,
    NOTHING,
    NOTHING,
    NOTHING,
    NOTHING,
    NOTHING,
    NOTHING,
    NOTHING,
    NOTHING,
    NOTHING,
    NOTHING,
    NOTHING,
    NOTHING,
    NOTHING,
    NOTHING,
    NOTHING,
    NOTHING,
    NOTHING,
    NOTHING,
    NOTHING,
    NOTHING,
    NOTHING,
    NOTHING,
    NOTHING,
    NOTHING,
    NOTHING,
    NOTHING,
    NOTHING,
    NOTHING,
    NOTHING,
    NOTHING,
    NOTHING,
    NOTHING,
    NOTHING,
    NOTHING,
    NOTHING,
    NOTHING,
    NOTHING,
    NOTHING,
    NOTHING,
    NOTHING,
    NOTHING,
    NOTHING,
    NOTHING,
    NOTHING,
    NOTHING,
    NOTHING,
    NOTHING,
    NOTHING,
    NOTHING,
    NOTHING,
    NOTHING,
    NOTHING,
    NOTHING,
    NOTHING,
    NOTHING,
    NOTHING,
    NOTHING,
    NOTHING,
    NOTHING,
    NOTHING,
    NOTHING,
    NOTHING,
    NOTHING,
    NOTHING,
    NOTHING,
    NOTHING,
    NOTHING,
    NOTHING,
    NOTHING,
    NOTHING,
    NOTHING,
    NOTHING,
    NOTHING,
    NOTHING,
    NOTHING,
    NOTHING,
    NOTHING,
    NOTHING,
    // 22
    NAME,
    // 23
    ANY_SEVERAL_FIELD,
    DECLARED_ANY_SEVERAL_FIELD,
    // 24
    POSITIVE_SEVERAL_DIMENSION,
    // 25
    NOTHING,
    EXPR,
    // 26
    POSITIVE_TYPE_SEVERAL_IDENTIFIER,
    POSITIVE_QUALIFIER_TYPE_SEVERAL_IDENTIFIER,
    // 27
    NAME,
    NAME_ARRAY,
    // 28
    POSITIVE_SEVERAL_SPEC,
    // 29
    NOTHING,
    NOTHING,
    NOTHING,
    NOTHING,
    NOTHING,
    NOTHING,
    NOTHING,
    NOTHING,
    NOTHING,
    NOTHING,
    NOTHING,
    NOTHING,
    NOTHING,
    NOTHING,
    NOTHING,
    NOTHING,
    NOTHING,
    ANY_SEVERAL_TYPE,
    POSITIVE_SEVERAL_LAYOUT_ID,
    NOTHING,
    NOTHING,
    NOTHING,
    NOTHING,
    NOTHING,
    NOTHING,
    NOTHING,
    NOTHING,
    // 30
    NAME,
    NAME_EXPR,
    NOTHING,
    // 31
    TYPE,
    QUALIFIER_TYPE,
    // 40
    DECLARED_ANY_FULL_TYPE_SEVERAL_PARAMETER,
    // 41
    TYPE,
    TYPE_PARAMETER_IDENTIFIER,
    QUALIFIER_TYPE,
    QUALIFIER_TYPE_PARAMETER_IDENTIFIER,
    // 42
    ANY_SINGLE_SEVERAL_DECLARATOR,
    // 43
    FULL_TYPE,
    NAME_FULL_TYPE,
    FULL_TYPE_ARRAY,
    NAME_FULL_TYPE_ARRAY,
    FULL_TYPE_INITIALIZER,
    NAME_FULL_TYPE_INITIALIZER,
    FULL_TYPE_ARRAY_INITIALIZER,
    NAME_FULL_TYPE_ARRAY_INITIALIZER,
    // 44
    IDENTIFIER,
    IDENTIFIER_INITIALIZER,
    // 45
    EXPR,
    POSITIVE_SEVERAL_INITIALIZER,
    // 46
    NAME_ANY_QUALIFIER_SEVERAL_FIELD,
    NAME_ANY_QUALIFIER_SEVERAL_FIELD_IDENTIFIER,
    // 47
    PROTOTYPE,
    DECLARATORS,
    PRECISION_TYPE,
    BLOCK,
    NAME,
    QUALIFIER,
    // 60
    ANY_SEVERAL_STATEMENT,
    // 61
    NOTHING,
    EXPR,
    // 62
    EXPR_STATEMENT,
    EXPR_STATEMENT_STATEMENT,
    // 63
    ANY_EXPR_SEVERAL_STATEMENT,
    // 64
    NOTHING,
    EXPR,
    // 65
    CONDITION_STATEMENT,
    // 66
    STATEMENT_EXPR,
    // 67
    FOR_INIT_STATEMENT,
    FOR_INIT_CONDITION_STATEMENT,
    FOR_INIT_EXPR_STATEMENT,
    FOR_INIT_CONDITION_EXPR_STATEMENT,
    // 68
    NOTHING,
    NOTHING,
    NOTHING,
    NOTHING,
    EXPR,
    // 69
    EXPR,
    NAME_FULL_TYPE_INITIALIZER,
    // 70
    NOTHING,
    EXPR,
    DECLARATION,
    // 80
    ANY_SEVERAL_EXTERNAL,
    // 81
    PROTOTYPE_COMPOUND,
];

pub(crate) static KINDS: [Kind; 82] = [
    Kind { last: 0, first: 0 },
    Kind { last: 0, first: 1 },
    Kind { last: 0, first: 2 },
    Kind { last: 0, first: 3 },
    Kind { last: 1, first: 4 },
    Kind { last: 0, first: 6 },
    Kind { last: 0, first: 7 },
    Kind { last: 5, first: 8 },
    Kind {
        last: 18,
        first: 14,
    },
    Kind { last: 0, first: 33 },
    Kind {
        last: 10,
        first: 34,
    },
    Kind { last: 0, first: 45 },
    Kind { last: 0, first: 46 },
    Kind { last: 0, first: 47 },
    Kind { last: 0, first: 48 },
    Kind { last: 0, first: 49 },
    Kind { last: 0, first: 50 },
    Kind { last: 0, first: 0 },
    Kind { last: 0, first: 0 },
    Kind { last: 0, first: 0 },
    Kind { last: 1, first: 51 },
    Kind {
        last: 118,
        first: 53,
    },
    Kind {
        last: 0,
        first: 172,
    },
    Kind {
        last: 1,
        first: 173,
    },
    Kind {
        last: 0,
        first: 175,
    },
    Kind {
        last: 1,
        first: 176,
    },
    Kind {
        last: 1,
        first: 178,
    },
    Kind {
        last: 1,
        first: 180,
    },
    Kind {
        last: 0,
        first: 182,
    },
    Kind {
        last: 26,
        first: 183,
    },
    Kind {
        last: 2,
        first: 210,
    },
    Kind {
        last: 1,
        first: 213,
    },
    Kind { last: 0, first: 0 },
    Kind { last: 0, first: 0 },
    Kind { last: 0, first: 0 },
    Kind { last: 0, first: 0 },
    Kind { last: 0, first: 0 },
    Kind { last: 0, first: 0 },
    Kind { last: 0, first: 0 },
    Kind { last: 0, first: 0 },
    Kind {
        last: 0,
        first: 215,
    },
    Kind {
        last: 3,
        first: 216,
    },
    Kind {
        last: 0,
        first: 220,
    },
    Kind {
        last: 7,
        first: 221,
    },
    Kind {
        last: 1,
        first: 229,
    },
    Kind {
        last: 1,
        first: 231,
    },
    Kind {
        last: 1,
        first: 233,
    },
    Kind {
        last: 5,
        first: 235,
    },
    Kind { last: 0, first: 0 },
    Kind { last: 0, first: 0 },
    Kind { last: 0, first: 0 },
    Kind { last: 0, first: 0 },
    Kind { last: 0, first: 0 },
    Kind { last: 0, first: 0 },
    Kind { last: 0, first: 0 },
    Kind { last: 0, first: 0 },
    Kind { last: 0, first: 0 },
    Kind { last: 0, first: 0 },
    Kind { last: 0, first: 0 },
    Kind { last: 0, first: 0 },
    Kind {
        last: 0,
        first: 241,
    },
    Kind {
        last: 1,
        first: 242,
    },
    Kind {
        last: 1,
        first: 244,
    },
    Kind {
        last: 0,
        first: 246,
    },
    Kind {
        last: 1,
        first: 247,
    },
    Kind {
        last: 0,
        first: 249,
    },
    Kind {
        last: 0,
        first: 250,
    },
    Kind {
        last: 3,
        first: 251,
    },
    Kind {
        last: 4,
        first: 255,
    },
    Kind {
        last: 1,
        first: 260,
    },
    Kind {
        last: 2,
        first: 262,
    },
    Kind { last: 0, first: 0 },
    Kind { last: 0, first: 0 },
    Kind { last: 0, first: 0 },
    Kind { last: 0, first: 0 },
    Kind { last: 0, first: 0 },
    Kind { last: 0, first: 0 },
    Kind { last: 0, first: 0 },
    Kind { last: 0, first: 0 },
    Kind { last: 0, first: 0 },
    Kind {
        last: 0,
        first: 265,
    },
    Kind {
        last: 0,
        first: 266,
    },
];

pub(crate) static ALLOWED: [Allowed; 28] = [
    Allowed {
        low: 1,
        high: 16,
        also: 1,
        least: 0,
        most: 255,
        declares: false,
    },
    Allowed {
        low: 1,
        high: 16,
        also: 20,
        least: 0,
        most: 255,
        declares: false,
    },
    Allowed {
        low: 20,
        high: 20,
        also: 20,
        least: 0,
        most: 255,
        declares: false,
    },
    Allowed {
        low: 21,
        high: 23,
        also: 21,
        least: 0,
        most: 255,
        declares: false,
    },
    Allowed {
        low: 24,
        high: 24,
        also: 24,
        least: 0,
        most: 255,
        declares: false,
    },
    Allowed {
        low: 25,
        high: 25,
        also: 25,
        least: 0,
        most: 255,
        declares: false,
    },
    Allowed {
        low: 26,
        high: 26,
        also: 26,
        least: 0,
        most: 255,
        declares: false,
    },
    Allowed {
        low: 27,
        high: 27,
        also: 27,
        least: 0,
        most: 255,
        declares: false,
    },
    Allowed {
        low: 27,
        high: 27,
        also: 27,
        least: 0,
        most: 255,
        declares: true,
    },
    Allowed {
        low: 28,
        high: 28,
        also: 28,
        least: 0,
        most: 255,
        declares: false,
    },
    Allowed {
        low: 29,
        high: 29,
        also: 29,
        least: 0,
        most: 255,
        declares: false,
    },
    Allowed {
        low: 29,
        high: 29,
        also: 29,
        least: 19,
        most: 21,
        declares: false,
    },
    Allowed {
        low: 30,
        high: 30,
        also: 30,
        least: 0,
        most: 255,
        declares: false,
    },
    Allowed {
        low: 31,
        high: 31,
        also: 31,
        least: 0,
        most: 255,
        declares: false,
    },
    Allowed {
        low: 40,
        high: 40,
        also: 40,
        least: 0,
        most: 255,
        declares: false,
    },
    Allowed {
        low: 41,
        high: 41,
        also: 41,
        least: 0,
        most: 255,
        declares: false,
    },
    Allowed {
        low: 42,
        high: 42,
        also: 42,
        least: 0,
        most: 255,
        declares: false,
    },
    Allowed {
        low: 43,
        high: 43,
        also: 43,
        least: 0,
        most: 255,
        declares: false,
    },
    Allowed {
        low: 44,
        high: 44,
        also: 44,
        least: 0,
        most: 255,
        declares: false,
    },
    Allowed {
        low: 45,
        high: 45,
        also: 45,
        least: 0,
        most: 255,
        declares: false,
    },
    Allowed {
        low: 46,
        high: 46,
        also: 46,
        least: 0,
        most: 255,
        declares: false,
    },
    Allowed {
        low: 47,
        high: 47,
        also: 47,
        least: 0,
        most: 255,
        declares: false,
    },
    Allowed {
        low: 60,
        high: 60,
        also: 60,
        least: 0,
        most: 255,
        declares: false,
    },
    Allowed {
        low: 60,
        high: 68,
        also: 47,
        least: 0,
        most: 255,
        declares: false,
    },
    Allowed {
        low: 69,
        high: 69,
        also: 69,
        least: 0,
        most: 255,
        declares: false,
    },
    Allowed {
        low: 70,
        high: 70,
        also: 70,
        least: 0,
        most: 255,
        declares: false,
    },
    Allowed {
        low: 81,
        high: 81,
        also: 47,
        least: 0,
        most: 255,
        declares: false,
    },
    Allowed {
        low: 80,
        high: 80,
        also: 80,
        least: 0,
        most: 255,
        declares: false,
    },
];
