// What linkages a unit's entities may have, and what type a use of them (C11 6.2.2).

ghost use Rattle.std.specs.Prelude.{◌≡◌, ℕ, ◌<◌, ◌↔◌, List, IsTrue, IfSome, All, length};
ghost use Rattle.c_types.specs.Table.{type_of};
ghost use Rattle.core_tree.specs.Seen.{core_of};
ghost use Rattle.core_tree.specs.Range.{EachNode, EachEntity, InRange, entity_at, named_by};
ghost use Rattle.core_tree.specs.Linkages.{HasNoLinkage, MakesUnlinked, IsOfDeclared, DeclaresAs, IsDeclaredAs, IsUseIn};
ghost use Rattle.core_tree.specs.Linkages.{UsesDeclared, NodeLinkage, EntityLinkage, Linkages};

use c_types::table::TypeTable;
use c_types::term::{Term, TypeId};
use core_tree::node::{Entity, Linkage, Node, NodeKind, Storage};
use core_tree::trees::Trees;
use pta_base::Text;

// Whether an entity, if it is an automatic object or a parameter, has no linkage.
fn entity_linkage(entity: &Entity) -> bool
    ensures { IsTrue result ↔ EntityLinkage entity.now }
{
    match entity.storage {
        Storage::Automatic | Storage::Parameter => matches!(entity.linkage, Linkage::Local),
        _ => true,
    }
}

// Whether an entity has no linkage.
fn has_no_linkage(trees: &Trees<'_>, e: u32) -> bool
    requires { e < length trees.now.entities.now }
    ensures { IsTrue result ↔ HasNoLinkage (entity_at (core_of trees.now) e) }
{
    matches!(trees.entities[e as usize].linkage, Linkage::Local)
}

// Whether the entity of a kind, if it is a literal, has no linkage.
fn makes_unlinked(trees: &Trees<'_>, kind: &NodeKind) -> bool
    requires { IfSome (named_by kind.now) (λ e. e < length trees.now.entities.now) }
    ensures { IsTrue result ↔ MakesUnlinked (core_of trees.now) kind.now }
{
    match kind {
        NodeKind::Literal(e) => has_no_linkage(trees, *e),
        _ => true,
    }
}

// Whether a type is one of a declaration, or lacks the length alone that the declaration's type has.
fn is_of_declared(types: &TypeTable, declared: TypeId, ty: TypeId) -> bool
    requires declared { declared.0 < length types.now.terms }
    requires ty { ty.0 < length types.now.terms }
    ensures { IsTrue result ↔ IsOfDeclared (type_of types.now declared.0) (type_of types.now ty.0) }
{
    if types.same(declared, ty) {
        return true;
    }
    match (types.term(declared), types.term(ty)) {
        (
            Term::Array {
                of: element,
                length: Some(_),
            },
            Term::Array { of, length: None },
        ) => types.same(*element, *of),
        _ => false,
    }
}

// Whether an entity declares a name, with external linkage, as of a type, but for a length.
fn declares_as(trees: &Trees<'_>, name: &Text, ty: TypeId, entity: &Entity) -> bool
    requires ty { ty.0 < length trees.now.types.now.terms }
    requires entity { entity.now.ty.0 < length trees.now.types.now.terms }
    ensures { IsTrue result ↔ DeclaresAs (core_of trees.now) name.now (type_of trees.now.types.now ty.0) entity.now }
{
    matches!(entity.linkage, Linkage::External)
        && entity.name.as_str() == name.as_str()
        && is_of_declared(trees.types, entity.ty, ty)
}

// Whether some external declaration of a name has a type.
fn is_declared_as(trees: &Trees<'_>, name: &Text, ty: TypeId) -> bool
    requires ty { ty.0 < length trees.now.types.now.terms }
    requires types { All (λ entity. entity.ty.0 < length trees.now.types.now.terms) trees.now.entities.now }
    ensures { IsTrue result ↔ IsDeclaredAs (core_of trees.now) name.now (type_of trees.now.types.now ty.0) }
{
    trees
        .entities
        .iter()
        .any(|entity| declares_as(trees, name, ty, entity))
}

// Whether an entity, if it has external linkage, is declared as of a type.
fn is_use_in(trees: &Trees<'_>, ty: TypeId, e: u32) -> bool
    requires ty { ty.0 < length trees.now.types.now.terms }
    requires types { All (λ entity. entity.ty.0 < length trees.now.types.now.terms) trees.now.entities.now }
    requires entity { e < length trees.now.entities.now }
    ensures { IsTrue result
        ↔ IsUseIn (core_of trees.now) (type_of trees.now.types.now ty.0) (entity_at (core_of trees.now) e) }
{
    let entity = &trees.entities[e as usize];
    !matches!(entity.linkage, Linkage::External) || is_declared_as(trees, &entity.name, ty)
}

// Whether a kind, if it is a use of an entity with external linkage, has the type of a declaration.
fn uses_declared(trees: &Trees<'_>, ty: TypeId, kind: &NodeKind) -> bool
    requires ty { ty.0 < length trees.now.types.now.terms }
    requires types { All (λ entity. entity.ty.0 < length trees.now.types.now.terms) trees.now.entities.now }
    requires named { IfSome (named_by kind.now) (λ e. e < length trees.now.entities.now) }
    ensures { IsTrue result ↔ UsesDeclared (core_of trees.now) (type_of trees.now.types.now ty.0) kind.now }
{
    match kind {
        NodeKind::Named(e) | NodeKind::FunctionName(e) => is_use_in(trees, ty, *e),
        _ => true,
    }
}

// Whether a node makes and uses entities of the linkage that they may have.
fn node_linkage(trees: &Trees<'_>, node: &Node) -> bool
    requires ty { node.now.ty.0 < length trees.now.types.now.terms }
    requires types { All (λ entity. entity.ty.0 < length trees.now.types.now.terms) trees.now.entities.now }
    requires named { IfSome (named_by node.now.kind) (λ e. e < length trees.now.entities.now) }
    ensures { IsTrue result ↔ NodeLinkage (core_of trees.now) node.now }
{
    makes_unlinked(trees, &node.kind) && uses_declared(trees, node.ty, &node.kind)
}

// Whether each node makes and uses entities of the linkage that they may have.
fn node_linkages(trees: &Trees<'_>) -> bool
    requires types { All (λ entity. entity.ty.0 < length trees.now.types.now.terms) trees.now.entities.now }
    requires nodes { All (λ node. node.ty.0 < length trees.now.types.now.terms) trees.now.nodes.now }
    requires named { All (λ node. IfSome (named_by node.kind) (λ e. e < length trees.now.entities.now)) trees.now.nodes.now }
    ensures { IsTrue result ↔ EachNode (core_of trees.now) (λ n node. NodeLinkage (core_of trees.now) node) }
{
    for n in 0..trees.nodes.len() {
        if !node_linkage(trees, &trees.nodes[n]) {
            return false;
        }
    }
    true
}

// Whether each entity has a linkage that it may have.
fn entity_linkages(trees: &Trees<'_>) -> bool
    ensures { IsTrue result ↔ EachEntity (core_of trees.now) (λ e entity. EntityLinkage entity) }
{
    trees.entities.iter().all(|entity| entity_linkage(entity))
}

/// Whether linkages are what they may be in a unit, and uses of external names have the types of their declarations.
pub fn linkages(trees: &Trees<'_>) -> bool
    requires { InRange (core_of trees.now) }
    ensures { IsTrue result ↔ Linkages (core_of trees.now) }
{
    entity_linkages(trees) && node_linkages(trees)
}
