//! Units with what stands in them: these functions do nothing, and their contracts are the cases.
ghost use Rattle.sense_cases.specs.ExpressionCases.{ExpressionsStand};
ghost use Rattle.sense_cases.specs.ConversionCases.{ConversionsStand};
ghost use Rattle.sense_cases.specs.StatementCases.{StatementsStand};
ghost use Rattle.sense_cases.specs.NameCases.{NamesStand};
ghost use Rattle.sense_cases.specs.TypeCases.{TypesStand};
ghost use Rattle.sense_cases.specs.InitialiserCases.{InitialisersStand};
ghost use Rattle.sense_cases.specs.OpenArrays.{OpenArraysStand};
ghost use Rattle.sense_cases.specs.ScopeCases.{ScopesStand};

/// What expressions stand for (C11 6.5): members, indices, calls, assignments, sizes and literals.
pub fn expressions()
    ensures { ExpressionsStand }
{}

/// What is converted, and how (C11 6.3, 6.4.4, 6.4.5): null constants, casts, promotions, the usual conversions and the types of constants.
pub fn conversions()
    ensures { ConversionsStand }
{}

/// What statements stand for (C11 6.8).
pub fn statements()
    ensures { StatementsStand }
{}

/// What names mean (C11 6.2.1, 6.2.2, 6.2.7): linkage, storage, scopes, and the type that declarations give together.
pub fn names()
    ensures { NamesStand }
{}

/// What specifiers and declarators make (C11 6.7.2, 6.7.6), and the members and keys of tags (C11 6.7.2.3).
pub fn types()
    ensures { TypesStand }
{}

/// What initialisers initialise, in order (C11 6.7.9).
pub fn initialisers()
    ensures { InitialisersStand }
{}

/// How many elements an initialiser gives to an array without a length, and with which values (C11 6.7.9p22).
pub fn open_arrays()
    ensures { OpenArraysStand }
{}

/// Names and tags of inner scopes (C11 6.2.1, 6.2.2p4, 6.7.2.3), and cases beside one another (C11 6.8.4.2p3).
pub fn scopes()
    ensures { ScopesStand }
{}
