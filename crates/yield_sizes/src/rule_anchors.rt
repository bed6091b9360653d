use adp_model::Sequence;

/// For each rule of a grammar whether it is left-anchored, and whether it is right-anchored.
#[derive(Drop)]
pub struct Anchors {
    pub left: Sequence<bool>,
    pub right: Sequence<bool>,
}
