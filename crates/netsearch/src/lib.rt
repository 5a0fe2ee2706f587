// Nets and searches, with no bytes of a sheet: a net's tracks from its home track, the plain search, Refit's rounds; their definitions are in
// specs/, what the searches find in proofs/.
#![tactic(auto)]

// Which search Route and Least make: by which test of a home track.
#[derive(Clone, Copy)]
pub enum Search {
    Plain, // 01: plain search
}
