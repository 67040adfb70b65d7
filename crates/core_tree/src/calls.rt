// The row of a call (C11 6.5.2.2).

ghost use Rattle.std.specs.Prelude.{◌≡◌, ℕ, ◌<◌, ◌↔◌, IsTrue, All, length};
ghost use Rattle.c_types.specs.Trees.{NoTypes, trees_at};
ghost use Rattle.c_types.specs.Table.{type_of, types_of};
ghost use Rattle.c_types.specs.declared.term.Form.TheVariants.{Unspecified};
ghost use Rattle.core_tree.specs.Seen.{core_of};
ghost use Rattle.core_tree.specs.Typed.{IsValue};
ghost use Rattle.core_tree.specs.Rows.{CallRow, Calls, Arguments, IsFurther};
ghost use Rattle.core_tree.specs.Range.{InRange};

use crate::kinds::{is_value, is_value_kind};
use crate::trees::Trees;
use c_types::term::{Form, Term, TypeId};
use type_rules::kinds::is_passed;

/// Whether a call of that type stands over a callee and its arguments.
pub fn call_row(trees: &Trees<'_>, ty: TypeId, children: &[u32]) -> bool
    requires range { InRange (core_of trees.now) }
    requires ty { ty.0 < length trees.now.types.now.terms }
    requires children { All (λ c. c < length trees.now.nodes.now) children.now }
    ensures { IsTrue result ↔ CallRow (core_of trees.now) (type_of trees.now.types.now ty.0) children.now }
{
    match children {
        [c, args @ ..] => {
            let there = &trees.nodes[*c as usize];
            is_value_kind(&there.kind) && calls(trees, there.ty, ty, args)
        }
        [] => false,
    }
}

// Whether a call of a callee of that type gives that type from those arguments.
fn calls(trees: &Trees<'_>, callee: TypeId, ty: TypeId, args: &[u32]) -> bool
    requires range { InRange (core_of trees.now) }
    requires callee { callee.0 < length trees.now.types.now.terms }
    requires ty { ty.0 < length trees.now.types.now.terms }
    requires args { All (λ c. c < length trees.now.nodes.now) args.now }
    ensures { IsTrue result
        ↔ Calls (core_of trees.now) (type_of trees.now.types.now callee.0) (type_of trees.now.types.now ty.0) args.now }
{
    match trees.types.term(callee) {
        Term::Pointer(to) => match trees.types.term(*to) {
            Term::Function {
                result: given,
                parameters,
                form,
            } => {
                trees.types.same(*given, ty) && arguments(trees, parameters.as_slice(), *form, args)
            }
            _ => false,
        },
        _ => false,
    }
}

// Whether a node is an argument for a parameter of that type in a list of that form.
fn is_argument(trees: &Trees<'_>, form: Form, node: u32, ty: TypeId) -> bool
    requires range { InRange (core_of trees.now) }
    requires node { node < length trees.now.nodes.now }
    requires ty { ty.0 < length trees.now.types.now.terms }
    ensures { IsTrue result
        ↔ (form ≡ Unspecified → ⊥) × IsValue (core_of trees.now) node (type_of trees.now.types.now ty.0) }
{
    form != Form::Unspecified && is_value(trees, node, ty)
}

// Whether there is an argument of its type for each parameter, and further ones as the form says.
fn arguments(trees: &Trees<'_>, parameters: &[TypeId], form: Form, args: &[u32]) -> bool
    requires range { InRange (core_of trees.now) }
    requires parameters { All (λ id. id.0 < length trees.now.types.now.terms) parameters.now }
    requires args { All (λ c. c < length trees.now.nodes.now) args.now }
    ensures { IsTrue result
        ↔ Arguments (core_of trees.now) (trees_at (types_of trees.now.types.now) parameters.now) form args.now }
{
    let mut more = args;
    for ty in parameters {
        match more {
            [a, rest @ ..] => {
                if !is_argument(trees, form, *a, *ty) {
                    return false;
                }
                more = rest;
            }
            [] => return false,
        }
    }
    further(trees, form, more)
}

// Whether a list may have those arguments past its parameters.
fn further(trees: &Trees<'_>, form: Form, args: &[u32]) -> bool
    requires range { InRange (core_of trees.now) }
    requires args { All (λ c. c < length trees.now.nodes.now) args.now }
    ensures { IsTrue result ↔ Arguments (core_of trees.now) NoTypes form args.now }
{
    match form {
        Form::Fixed => args.is_empty(),
        Form::Variadic | Form::Unspecified => args.iter().all(|a| is_further(trees, *a)),
    }
}

// Whether a node is a value that may be passed past the parameters.
fn is_further(trees: &Trees<'_>, node: u32) -> bool
    requires range { InRange (core_of trees.now) }
    requires node { node < length trees.now.nodes.now }
    ensures { IsTrue result ↔ IsFurther (core_of trees.now) node }
{
    let there = &trees.nodes[node as usize];
    is_value_kind(&there.kind) && is_passed(trees.types, there.ty)
}
