//! Units that the rows refuse, each with the kind and the place: these functions do nothing, and their contracts are the cases.
ghost use Rattle.sense_cases.specs.ConversionRefusals.{ConversionFaults};
ghost use Rattle.sense_cases.specs.ExpressionRefusals.{FloatingFaults, OperandFaults, ConstantFaults, OrderFaults};
ghost use Rattle.sense_cases.specs.DeclarationRefusals.{LengthFaults, TagFaults, TypeFaults};
ghost use Rattle.sense_cases.specs.OtherRefusals.{WordFaults, LinkageFaults, InitialiserFaults, StaticFaults, StatementFaults};

/// Conversions that aren't taken are refused at what asks for them (C11 6.3, 6.5.4, 6.5.16.1).
pub fn conversion_faults()
    ensures { ConversionFaults }
{}

/// An expression of floating type is refused whatever else is wrong with it.
pub fn floating_faults()
    ensures { FloatingFaults }
{}

/// Operands that don't fit are refused at their operator (C11 6.5).
pub fn operand_faults()
    ensures { OperandFaults }
{}

/// Of an expression that must be constant the part that fails is refused (C11 6.6).
pub fn constant_faults()
    ensures { ConstantFaults }
{}

/// The first node in the order in which productions end is refused.
pub fn order_faults()
    ensures { OrderFaults }
{}

/// Lengths, sizes and alignments that can't be are refused (C11 6.7.6.2, 6.5.3.4, 6.7.5).
pub fn length_faults()
    ensures { LengthFaults }
{}

/// Tags and members that can't be are refused at their names (C11 6.7.2.1, 6.7.2.3).
pub fn tag_faults()
    ensures { TagFaults }
{}

/// Types that a name can't have, and definitions that aren't taken, are refused at the name (C11 6.7, 6.9.1).
pub fn type_faults()
    ensures { TypeFaults }
{}

/// Words that don't go together, or with what is declared, are refused (C11 6.7.1, 6.7.4).
pub fn word_faults()
    ensures { WordFaults }
{}

/// Declarations of one name that don't agree are refused at the later one (C11 6.2.2, 6.7).
pub fn linkage_faults()
    ensures { LinkageFaults }
{}

/// Values and designators without a place are refused, behind all faults of the expressions (C11 6.7.9).
pub fn initialiser_faults()
    ensures { InitialiserFaults }
{}

/// What the initialiser of a static object can't hold is refused (C11 6.7.9p4).
pub fn static_faults()
    ensures { StaticFaults }
{}

/// Statements that can't stand where they do are refused at their word (C11 6.8).
pub fn statement_faults()
    ensures { StatementFaults }
{}
