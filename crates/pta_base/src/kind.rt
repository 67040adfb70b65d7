// Why a construct is not accepted.
ghost use Rattle.std.specs.Prelude.{◌≡◌};
ghost use Rattle.pta_base.specs.Kind.{name_of};

/// The kinds of constructs that are refused by place, with status 4.
#[derive(Clone, Copy, Debug, PartialEq, Eq)]
pub enum Kind {
    /// A floating constant or an expression of floating type.
    Floating,
    /// `_Complex` or `_Imaginary`.
    Complex,
    /// `_Atomic`.
    Atomic,
    /// `_Generic`.
    Generic,
    /// An array whose length is no constant.
    Vla,
    /// An assembly statement.
    Asm,
    /// A block as an expression.
    StatementExpression,
    /// `typeof`.
    Typeof,
    /// A name that begins with `__builtin_`, or a use of the variadic list.
    Builtin,
    /// A list of parameter names without types.
    OldParameters,
    /// A thread-local object.
    ThreadLocal,
    /// A function defined `inline` without `static`.
    InlineDefinition,
    /// The definition of a variadic function.
    VariadicDefinition,
    /// A cast between pointers to different structures.
    StructureCast,
    /// A cast between pointers to integers of different sizes.
    IntegerSizeCast,
    /// A cast from a structure pointer to a character pointer.
    CharacterCast,
    /// A number made into a pointer.
    NumberToPointer,
    /// An array member of a structure value.
    ArrayOfValue,
    /// The name of a flexible array member.
    FlexibleMember,
    /// A wide literal.
    Wide,
    /// An integer type wider than 64 bits.
    WideInteger,
    /// A character constant of several characters.
    Character,
    /// The address of a label.
    LabelAddress,
    /// A case range or a designator range.
    Range,
    /// A name without a declaration in sight.
    Undeclared,
    /// A name that is declared again.
    Redeclared,
    /// A construct whose operands have no fitting types.
    Operand,
    /// An expression that is no constant where one must stand.
    Constant,
    /// A constant out of the range of its type, or a bad shift count.
    ConstantRange,
    /// A constant divided by zero.
    DivideByZero,
    /// An initialiser without a place in its object.
    Initialiser,
    /// A form of text that is not built yet.
    NotBuilt,
}

impl Kind {
    /// The name that the line of the refusal prints. Takes no memory.
    pub fn name(self) -> &'static str
        ensures { result.now ≡ name_of self }
    {
        match self {
            Kind::Floating => "floating",
            Kind::Complex => "complex",
            Kind::Atomic => "atomic",
            Kind::Generic => "generic",
            Kind::Vla => "vla",
            Kind::Asm => "asm",
            Kind::StatementExpression => "statement-expression",
            Kind::Typeof => "typeof",
            Kind::Builtin => "builtin",
            Kind::OldParameters => "old-parameters",
            Kind::ThreadLocal => "thread-local",
            Kind::InlineDefinition => "inline-definition",
            Kind::VariadicDefinition => "variadic-definition",
            Kind::StructureCast => "structure-cast",
            Kind::IntegerSizeCast => "integer-size-cast",
            Kind::CharacterCast => "character-cast",
            Kind::NumberToPointer => "number-to-pointer",
            Kind::ArrayOfValue => "array-of-value",
            Kind::FlexibleMember => "flexible-member",
            Kind::Wide => "wide",
            Kind::WideInteger => "wide-integer",
            Kind::Character => "character",
            Kind::LabelAddress => "label-address",
            Kind::Range => "range",
            Kind::Undeclared => "undeclared",
            Kind::Redeclared => "redeclared",
            Kind::Operand => "operand",
            Kind::Constant => "constant",
            Kind::ConstantRange => "constant-range",
            Kind::DivideByZero => "divide-by-zero",
            Kind::Initialiser => "initialiser",
            Kind::NotBuilt => "not-built",
        }
    }
}
