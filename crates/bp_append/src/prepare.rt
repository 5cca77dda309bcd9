//! The whole preparation of a tree.

ghost use Rattle.std.specs.Prelude.{◌≡◌, ℕ, ◌⊎◌, ◌+◌, ◌*◌, ◌<◌, ◌≤◌, nat_lt, ◌++◌, ◌∷◌, [], length};
ghost use Rattle.bp_free.specs.Parts.{KeepsSets};
ghost use Rattle.bp_layout.specs.Words.{block_of};
ghost use Rattle.pm_epochs.specs.May.{links_of};
ghost use Rattle.pm_region.specs.Memory.{words_in, room_in, Adds};
ghost use Rattle.bp_append.specs.Prepared.{IsPreparable, PreparesAt};
ghost use Rattle.bp_append.specs.Visited.{links_in};
ghost use Rattle.bp_append.specs.Grown.{changed, Links, AreLow};
ghost use Rattle.bp_append.specs.Nodes.{CanGrowTree, GrowsTree, MakesRoot, MakesTree};

use crate::fill::make;
use crate::need::{has_blocks, height_with};
use crate::raise::raise;
use crate::visit::{Link, visit};
use crate::wanted::{TreeBlock, Wanted};
use bp_free::{Blocks, Parts};
use bp_layout::RootWord;
use bp_read::{Slots, Tree, address};
use pm_region::Region;

/// Builds a tree of the needed height for the wanted bytes, for a tree without blocks. Returns its root word.
fn make_root<R: Region>(
    region: &mut R,
    blocks: &mut Blocks,
    tree: Tree,
    wanted: Wanted,
    bytes: &[u8],
) -> u64
    requires can { CanGrowTree R.memory region.old blocks.old tree wanted }
    requires null { (tree.size ≡ 0) ⊎ (block_of tree.root ≡ 0) }
    ensures roots { MakesRoot R.memory region.old region.new blocks.old blocks.new tree wanted bytes.now result }
    ensures room { length blocks.new ≡ length blocks.old }
{
    let height = height_with(tree, wanted.to);
    if wanted.from < wanted.to {
        let pointer = make(region, blocks, height, 0, wanted, bytes);
        let block = pm_words::block_of(pointer);
        RootWord { height, block }.word()
    } else {
        RootWord { height, block: 0 }.word()
    }
}

/// Stores a word if another value is at its place. Returns whether it did.
fn change<R: Region>(region: &mut R, place: u64, word: u64) -> bool
    requires place { place < length (R.memory region.old).base }
    requires room { 1 ≤ room_in (R.memory region.old) }
    ensures adds { Adds (R.memory region.old) (R.memory region.new) (links_of (changed (words_in R.memory region.old) ((place, word) ∷ []))) }
    ensures reports { result ≡ nat_lt 0 (length (changed (words_in R.memory region.old) ((place, word) ∷ []))) }
{
    let differs = region.load(place) != word;
    if differs {
        region.store(place, word);
    }
    differs
}

/// Stores the pending pointer to a new node, if there is one and its place has another value. Returns whether it did.
fn change_hung<R: Region>(region: &mut R, hung: Option<Link>) -> bool
    requires low { AreLow (R.memory region.old) (links_in hung) }
    requires room { 1 ≤ room_in (R.memory region.old) }
    ensures adds { Adds (R.memory region.old) (R.memory region.new) (links_of (changed (words_in R.memory region.old) (links_in hung))) }
    ensures reports { result ≡ nat_lt 0 (length (changed (words_in R.memory region.old) (links_in hung))) }
{
    match hung {
        Some(link) => change(region, link.place, link.pointer),
        None => false,
    }
}

/// Stores the links of a preparation in an epoch of their own: the pending pointer to a new node, if any, and the root
/// word. A link that is in place already is not stored. If all are, there is no such epoch, since each barrier may
/// flush the medium.
fn link<R: Region>(region: &mut R, hung: Option<Link>, place: u64, root: u64)
    requires low { AreLow (R.memory region.old) (links_in hung) }
    requires place { place < length (R.memory region.old).base }
    requires room { 4 ≤ room_in (R.memory region.old) }
    ensures { Links (R.memory region.old) (R.memory region.new) (links_in hung ++ (place, root) ∷ []) }
{
    // A link, or the size that the caller stores next, makes words visible: a crash could keep it and lose some of
    // these words.
    region.barrier();
    let hangs = change_hung(region, hung);
    let roots = change(region, place, root);
    if hangs || roots {
        // A crash could keep the size that the caller stores next and lose a link; bytes below the size would then have
        // no block.
        region.barrier();
    }
}

/// Prepares a tree with blocks, whose root word is at `place`.
fn prepare_tree<R: Region>(
    region: &mut R,
    blocks: &mut Blocks,
    place: u64,
    tree: Tree,
    wanted: Wanted,
    bytes: &[u8],
)
    requires can { CanGrowTree R.memory region.old blocks.old tree wanted }
    requires place { place < length (R.memory region.old).base }
    requires some { 0 < tree.size }
    requires present { 1 ≤ block_of tree.root }
    ensures grows { GrowsTree R.memory region.old region.new blocks.old blocks.new place tree wanted bytes.now }
    ensures room { length blocks.new ≡ length blocks.old }
{
    let _words = region.words();
    let top = TreeBlock {
        block: tree.block() as u32,
        level: tree.height(),
        start: 0,
    };
    let hung = visit(region, blocks, tree, top, wanted, bytes);
    let height = height_with(tree, wanted.to);
    let root = raise(region, blocks, tree, height, wanted, bytes);
    link(region, hung, place, root);
}

/// Prepares a tree without blocks, whose root word is at `place`.
fn prepare_null<R: Region>(
    region: &mut R,
    blocks: &mut Blocks,
    place: u64,
    tree: Tree,
    wanted: Wanted,
    bytes: &[u8],
)
    requires can { CanGrowTree R.memory region.old blocks.old tree wanted }
    requires place { place < length (R.memory region.old).base }
    requires null { (tree.size ≡ 0) ⊎ (block_of tree.root ≡ 0) }
    ensures makes { MakesTree R.memory region.old region.new blocks.old blocks.new place tree wanted bytes.now }
    ensures room { length blocks.new ≡ length blocks.old }
{
    let root = make_root(region, blocks, tree, wanted, bytes);
    link(region, None, place, root);
}

/// Prepares a tree for the bytes before offset `new_end`. `at` is the path of its root word, after which its size is
/// stored. From the tree's size on, the bytes are `bytes` from offset `from` on, and 0 elsewhere; from `from` on each
/// byte has a block.
///
/// The size does not change, and neither does the meaning of the image, at each crash point. Takes as many blocks as
/// [`need_prep`](crate::need_prep) returns.
pub fn stage_append<R: Region>(
    parts: &mut Parts<R>,
    at: &Slots,
    from: u64,
    bytes: &[u8],
    new_end: u64,
)
    requires can { IsPreparable R.memory parts.old at.now.items from new_end }
    ensures prepares { PreparesAt R.memory parts.old parts.new at.now.items from new_end bytes.now }
    ensures keeps { KeepsSets parts.old parts.new }
{
    let _words = parts.region.words();
    let place = address(&parts.region, at);
    let tree = Tree {
        root: parts.region.load(place),
        size: parts.region.load(place + 1),
    };
    let wanted = Wanted { from, to: new_end };
    if has_blocks(tree) {
        prepare_tree(
            &mut parts.region,
            &mut parts.free_blocks,
            place,
            tree,
            wanted,
            bytes,
        );
    } else {
        prepare_null(
            &mut parts.region,
            &mut parts.free_blocks,
            place,
            tree,
            wanted,
            bytes,
        );
    }
}
