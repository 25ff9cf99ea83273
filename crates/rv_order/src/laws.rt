//! The laws of offline memory checking (Blum et al. 1991), over a plain list of accesses with their own times, a table of last uses, and initial values.
//!
//! Each law is the contract of a function that does nothing: call it where the law is needed.
ghost use Rattle.std.specs.Prelude.{◌≡◌, ℕ, List};
ghost use Rattle.rv_base.specs.declared.Tuple.{Tuple};
ghost use Rattle.rv_base.specs.declared.TableEntry.{TableEntry};
ghost use Rattle.rv_rules.specs.Chain.{AreOrdered, IsChain, WrittenOnce};
ghost use Rattle.rv_spec.specs.Digest.{Lanes, digest};
ghost use Rattle.rv_spec.specs.Tuples.{Event, all_read, all_written};
ghost use Rattle.rv_spec.specs.Multiset.{Same};
ghost use Rattle.rv_order.specs.OwnTimes.{HaveOwnTimes};

/// Lists that are one multiset have equal digests, whatever the lanes (Clarke et al. 2003).
pub fn equal_digests()
    ensures { (lanes : Lanes) (xs ys : List Tuple) → Same xs ys → digest lanes xs ≡ digest lanes ys }
{}

/// No two tuples that are written have one cell and one time.
pub fn written_once()
    ensures { (initial : ℕ → ℕ) (es : List Event) (table : List TableEntry) (bound : ℕ) → AreOrdered es table bound → WrittenOnce (all_written initial es table) }
{}

/// Where all that is read and all that is written are one multiset, each access reads the last write to its cell, and the table holds the last use of each cell.
pub fn chain()
    ensures { (initial : ℕ → ℕ) (es : List Event) (table : List TableEntry) (bound : ℕ) → AreOrdered es table bound → Same (all_read es table) (all_written initial es table) → IsChain initial es table bound }
{}

/// The other direction: where each access has a time of its own and reads the last write to its cell, and the table holds the last use of each cell, all that is read and all that is written are one multiset. Each access then reads an earlier time, the table's times aren't 0, and its cells rise.
pub fn chain_converse()
    ensures ordered { (initial : ℕ → ℕ) (es : List Event) (table : List TableEntry) (bound : ℕ) → HaveOwnTimes es bound → IsChain initial es table bound → AreOrdered es table bound }
    ensures same { (initial : ℕ → ℕ) (es : List Event) (table : List TableEntry) (bound : ℕ) → HaveOwnTimes es bound → IsChain initial es table bound → Same (all_read es table) (all_written initial es table) }
{}
