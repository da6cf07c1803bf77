//! Proofs only: the algebra of signed integers, and of sums over tables of triangles, that the laws of the plane and the mesh stand on.
#![tactic(auto)]
