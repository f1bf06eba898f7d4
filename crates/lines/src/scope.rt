// What names mean at a place of the tree: a marker for each name that has one. A name is a byte, so there is a place for each.
ghost use Rattle.std.specs.Prelude.{◌≡◌};
ghost use Rattle.lines.specs.Scope.{no_names, giving, inside};
ghost use Rattle.lines.specs.Values.{meaning_in};

use crate::{Marker, Node};

// What names mean at a place of the tree: a place for each byte, since a name is one; none, where it means nothing. An array and no map: memory is fixed.
pub type Scope = [Option<Marker>; 256];

// The scope in which no name means anything.
pub fn no_names() -> Scope
    ensures { meaning_in result ≡ no_names }
{
    [None; 256]
}

// What a name means in a scope.
pub fn look_up(scope: Scope, name: u8) -> Option<Marker>
    ensures { result ≡ meaning_in scope name }
{
    scope[name as usize]
}

// The scope with a marker given to a name.
pub fn give(scope: Scope, name: u8, marker: Marker) -> Scope
    ensures { meaning_in result ≡ giving name marker (meaning_in scope) }
{
    let mut inner = scope;
    inner[name as usize] = Some(marker);
    inner
}

// The scope in a node's branches.
pub fn enter(scope: Scope, node: Node) -> Scope
    ensures { meaning_in result ≡ inside node (meaning_in scope) }
{
    match node {
        Node::Receive(_, name, binder) => give(scope, name, Marker::Binder(binder)),
        Node::Restriction(name, channel) => give(scope, name, Marker::Channel(channel)),
        _ => scope,
    }
}
