//! A law of the contracts of the two puts: a function that does nothing.
ghost use Rattle.clru.specs.Laws.{ReplacedIsAnswered, DroppedIsHandedOut};

/// States how the two puts of a pair at weight zero compare. A weighted put returns what a plain put into the same cache replaces, and
/// calls `on_drop` exactly on what the plain put drops.
///
/// Neither of the two is refused.
pub fn law_dropped<K: Eq, V, W, F: FnMut(K, V)>()
    ensures replaced { ReplacedIsAnswered K.eq F.FnMut W }
    ensures dropped { DroppedIsHandedOut K.eq F.FnMut W }
{}
