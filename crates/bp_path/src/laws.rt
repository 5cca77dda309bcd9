//! Properties of walks. Each is the contract of a function with an empty body.

ghost use Rattle.bp_path.specs.Walk.{WalkIsLookup};

/// States that a walk finds an inode exactly when a look-up of the names does.
pub fn walk_is_lookup(_image: &[u64])
    ensures { WalkIsLookup _image.now }
{}
