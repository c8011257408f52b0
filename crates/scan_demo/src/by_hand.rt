//! The demo file of ten rows, as it was worked out by hand.

ghost use Rattle.std.specs.Prelude.{◌≡◌, ◌++◌, ◌∷◌, [], true, false, codes, length};
ghost use Rattle.vx_base.specs.ColumnCalls.{natural};
ghost use Rattle.vx_base.specs.Data.{null, truth, text, structure, no_items, item};
ghost use Rattle.scan_demo.specs.DemoBytes.{demo_bytes, demo_locations, location_of};
ghost use Rattle.scan_demo.specs.DemoNodes.{demo_nodes};
ghost use Rattle.scan_demo.specs.DemoRows.{demo_row};
ghost use Rattle.scan_demo.specs.Summary.{summary};
ghost use Rattle.scan_demo.specs.TenRows.{nodes_of_ten};

/// Two of its rows, each node of its layout, how many nodes and bytes it has, where its segments lie, and its summary.
pub fn demo_by_hand()
    ensures lacking { demo_row 10 3 ≡ structure (item (natural 103) (item null (item (truth true) no_items))) }
    ensures named { demo_row 10 8 ≡ structure (item (natural 258) (item (text (codes "n8")) (item (truth false) no_items))) }
    ensures layout { demo_nodes 10 ≡ nodes_of_ten }
    ensures nodes { length (demo_nodes 10) ≡ 9 }
    ensures bytes { length (demo_bytes 10) ≡ 196 }
    ensures locations { demo_locations 10 ≡ location_of 0 80 ∷ location_of 80 102 ∷ location_of 182 12 ∷ location_of 194 2 ∷ [] }
    ensures summary { summary 10 ≡ codes "rows=10" ++ 10 ∷ (codes "batches=1" ++ 10 ∷ (codes "id_sum=1495" ++ 10
        ∷ (codes "name_nulls=1" ++ 10 ∷ (codes "flag_true=4" ++ 10 ∷ [])))) }
{}
