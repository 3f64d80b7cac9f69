//! Names that equations join, by labels: names are joined just where their labels are one.
ghost use Rattle.std.specs.Prelude.{◌≡◌, IfOk};
ghost use Rattle.mz_tree.specs.View.{plain_atoms};
ghost use Rattle.mz_index.specs.Labels.{AreLabels, label};

use mz_tree::{Atom, Memory};
use sqlite_items::Items;
use std::alloc::Global;

// the one label becomes the other
#[derive(Clone, Copy)]
pub(crate) struct Link {
    from: u32,
    to: u32,
}

// links whose labels are one just for names that the equations among these permissions join
pub(crate) fn links_of(alloc: Global, atoms: &[Atom]) -> Result<Items<Link>, Memory>
    ensures { IfOk result (λ links. AreLabels links (plain_atoms atoms.now)) }
{
    let mut links = Items::new(alloc);
    for i in 0..atoms.len() {
        match &atoms[i] {
            Atom::Has { .. } => {}
            Atom::Same { left, right } => {
                let from = label(links.as_slice(), *left);
                let to = label(links.as_slice(), *right);
                links.push(Link { from, to })?;
            }
        }
    }
    Ok(links)
}

// the label of a name
pub(crate) fn label(links: &[Link], name: u32) -> u32
    ensures { result ≡ label links.now name }
{
    let mut at = name;
    for i in 0..links.len() {
        if at == links[i].from {
            at = links[i].to;
        }
    }
    at
}
