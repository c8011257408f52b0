//! Dtypes, nodes, expressions, rows and whole requests that were written by hand, on which the definitions of their
//! forms are checked.

ghost use Rattle.std.specs.Prelude.{◌≡◌, [], ◌∷◌, Some, None, pos, codes};
ghost use Rattle.serde_json.specs.Data.{unsigned, null, number, string, array, object, no_items, item, no_members, member};
ghost use Rattle.vx_expr.specs.declared.statistics.Statistic.TheVariants.{NullCount};
ghost use Rattle.vx_expr.specs.Terms.{root, literal, get_field, pack, comparison, row_number, no_terms, named};
ghost use Rattle.vx_expr.specs.declared.operators.CompareOp.TheVariants.{Le};
ghost use Rattle.vx_layout.specs.declared.nodes.LayoutKind.TheVariants.{Flat, Zoned};
ghost use Rattle.vx_splits.specs.declared.selections.Selection.TheVariants.{All, IncludeByIndex, ExcludeByIndex};
ghost use Rattle.scan_request.specs.DtypeForms.{dtype_form};
ghost use Rattle.scan_request.specs.ExpressionForms.{expression_form};
ghost use Rattle.scan_request.specs.NodeForms.{node_form};
ghost use Rattle.scan_request.specs.RequestForms.{request_form};
ghost use Rattle.scan_request.specs.RowForms.{range_form, selection_form};
ghost use Rattle.vx_base.specs.declared.codings.Coding.TheVariants.{Plain, Runs};
ghost use Rattle.vx_base.specs.declared.dtypes.IntKind.TheVariants.{U16, I64};
ghost use Rattle.vx_base.specs.declared.dtypes.Nullability.TheVariants.{NonNullable, Nullable};
ghost use Rattle.vx_base.specs.Data.{int_type, utf8_type, list_type, struct_type};
ghost use Rattle.vx_base.specs.Data as values;
ghost use Rattle.vx_base.specs.Views.{members_from};

/// A `?` at the end takes nulls, one of them; a struct has its fields in order, and a list its element; each is
/// an object of one member.
pub fn dtype_forms_by_hand()
    ensures leaf { dtype_form (string (codes "u16")) ≡ Some (int_type U16 NonNullable) }
    ensures nullable { dtype_form (string (codes "utf8?")) ≡ Some (utf8_type Nullable) }
    ensures two_marks { dtype_form (string (codes "i64??")) ≡ None }
    ensures no_name { dtype_form (string (codes "f64")) ≡ None }
    ensures list { dtype_form (object (member (codes "list?") (string (codes "i64")) no_members))
        ≡ Some (list_type (int_type I64 NonNullable) Nullable) }
    ensures fields { dtype_form (object (member (codes "struct") (array (item (array (item (string (codes "a"))
        (item (string (codes "i64?")) no_items))) no_items)) no_members))
        ≡ Some (struct_type (members_from (record { name = codes "a"; dtype = int_type I64 Nullable } ∷ [])) NonNullable) }
    ensures no_fields { dtype_form (object (member (codes "struct") (array no_items) no_members))
        ≡ Some (struct_type (members_from []) NonNullable) }
    ensures two_members { dtype_form (object (member (codes "list") (string (codes "i64")) (member (codes "struct")
        (array no_items) no_members))) ≡ None }
{}

/// A flat node has four members, or five with its coding, and no children, a zoned one six; one member too many makes it
/// none, and so does a coding that is null.
#[tactic(auto, unfolding(crate::specs::NodeForms::node_form, crate::specs::NodeForms::node_of_kind))]
pub fn node_forms_by_hand()
    ensures flat { node_form (object (member (codes "dtype") (string (codes "i64")) (member (codes "kind")
        (string (codes "flat")) (member (codes "rows") (number (unsigned 3)) (member (codes "segment")
        (number (unsigned 7)) no_members))))) ≡ Some (record { kind = Flat 7 Plain; dtype = int_type I64 NonNullable; rows = 3; children = [] }) }
    ensures zoned { node_form (object (member (codes "children") (array (item (number (unsigned 1))
        (item (number (unsigned 2)) no_items))) (member (codes "dtype") (string (codes "i64")) (member (codes "kind")
        (string (codes "zoned")) (member (codes "rows") (number (unsigned 3)) (member (codes "stats")
        (array (item (string (codes "null_count")) no_items)) (member (codes "zone_len") (number (unsigned 2)) no_members)))))))
        ≡ Some (record { kind = Zoned 2 (NullCount ∷ []); dtype = int_type I64 NonNullable; rows = 3; children = 1 ∷ 2 ∷ [] }) }
    ensures coded { node_form (object (member (codes "coding") (string (codes "runs")) (member (codes "dtype")
        (string (codes "i64")) (member (codes "kind") (string (codes "flat")) (member (codes "rows") (number (unsigned 3))
        (member (codes "segment") (number (unsigned 7)) no_members)))))) ≡ Some (record { kind = Flat 7 Runs; dtype = int_type I64 NonNullable; rows = 3; children = [] }) }
    ensures no_coding { node_form (object (member (codes "coding") null (member (codes "dtype") (string (codes "i64"))
        (member (codes "kind") (string (codes "flat")) (member (codes "rows") (number (unsigned 3)) (member (codes "segment")
        (number (unsigned 7)) no_members)))))) ≡ None }
    ensures too_many { node_form (object (member (codes "children") (array no_items) (member (codes "dtype")
        (string (codes "i64")) (member (codes "kind") (string (codes "flat")) (member (codes "rows") (number (unsigned 3))
        (member (codes "segment") (number (unsigned 7)) no_members)))))) ≡ None }
{}

/// A name alone, an operand, named operands and two operands; a literal has its value and its dtype. Three operands, an
/// unknown name and two members other than those of a literal make it none.
pub fn expression_forms_by_hand()
    ensures row_idx { expression_form (string (codes "row_idx")) ≡ Some row_number }
    ensures get { expression_form (object (member (codes "get") (array (item (string (codes "a"))
        (item (string (codes "root")) no_items))) no_members)) ≡ Some (get_field (codes "a") root) }
    ensures pack { expression_form (object (member (codes "pack") (array (item (array (item (string (codes "n"))
        (item (string (codes "row_idx")) no_items))) no_items)) no_members)) ≡ Some (pack (named (codes "n") row_number no_terms)) }
    ensures pack_none { expression_form (object (member (codes "pack") (array no_items) no_members)) ≡ Some (pack no_terms) }
    ensures literal { expression_form (object (member (codes "lit") (number (unsigned 3)) (member (codes "type")
        (string (codes "utf8?")) no_members))) ≡ Some (literal (values.number (pos 3)) (utf8_type Nullable)) }
    ensures compare { expression_form (object (member (codes "le") (array (item (string (codes "row_idx"))
        (item (string (codes "root")) no_items))) no_members)) ≡ Some (comparison Le row_number root) }
    ensures three { expression_form (object (member (codes "and") (array (item (string (codes "root"))
        (item (string (codes "root")) (item (string (codes "root")) no_items)))) no_members)) ≡ None }
    ensures unknown { expression_form (object (member (codes "at_most_bound") (string (codes "root")) no_members)) ≡ None }
    ensures two_members { expression_form (object (member (codes "is_null") (string (codes "root")) (member (codes "not")
        (string (codes "root")) no_members))) ≡ None }
{}

/// A range may be reversed; indices are none or ascend strictly, and only one list of them is there.
pub fn row_forms_by_hand()
    ensures reversed { range_form (array (item (number (unsigned 7)) (item (number (unsigned 3)) no_items)))
        ≡ Some (record { start = 7; end = 3 }) }
    ensures all { selection_form None None ≡ Some All }
    ensures some { selection_form (Some (array (item (number (unsigned 3)) (item (number (unsigned 7)) no_items)))) None
        ≡ Some (IncludeByIndex (3 ∷ 7 ∷ [])) }
    ensures no_row { selection_form (Some (array no_items)) None ≡ Some (IncludeByIndex []) }
    ensures others { selection_form None (Some (array (item (number (unsigned 3)) no_items))) ≡ Some (ExcludeByIndex (3 ∷ [])) }
    ensures twice { selection_form (Some (array (item (number (unsigned 3)) (item (number (unsigned 3)) no_items)))) None ≡ None }
    ensures both { selection_form (Some (array no_items)) (Some (array no_items)) ≡ None }
{}

/// All rows whole where only locations and nodes are there, a limit of no row is one; a further member makes it none, and so
/// does an absent one's null, and a limit that is no number.
#[tactic(auto, unfolding(crate::specs::RequestForms::request_form))]
pub fn request_forms_by_hand()
    ensures least { request_form (object (member (codes "locations") (array no_items) (member (codes "nodes") (array no_items) no_members)))
        ≡ Some (record { locations = []; nodes = []; projection = root; range = None; selection = All; limit = None; row_offset = 0 }) }
    ensures more { request_form (object (member (codes "exclude") (array no_items) (member (codes "locations") (array no_items)
        (member (codes "nodes") (array no_items) (member (codes "projection") (string (codes "row_idx")) (member (codes "row_offset")
        (number (unsigned 5)) no_members)))))) ≡ Some (record {
          locations = [];
          nodes = [];
          projection = row_number;
          range = None;
          selection = ExcludeByIndex [];
          limit = None;
          row_offset = 5;
        }) }
    ensures limited { request_form (object (member (codes "limit") (number (unsigned 0)) (member (codes "locations") (array no_items)
        (member (codes "nodes") (array no_items) no_members)))) ≡ Some (record {
          locations = [];
          nodes = [];
          projection = root;
          range = None;
          selection = All;
          limit = Some 0;
          row_offset = 0;
        }) }
    ensures further { request_form (object (member (codes "locations") (array no_items) (member (codes "nodes") (array no_items)
        (member (codes "rows") (array no_items) no_members)))) ≡ None }
    ensures null_range { request_form (object (member (codes "locations") (array no_items) (member (codes "nodes") (array no_items)
        (member (codes "range") null no_members)))) ≡ None }
    ensures null_limit { request_form (object (member (codes "limit") null (member (codes "locations") (array no_items)
        (member (codes "nodes") (array no_items) no_members)))) ≡ None }
    ensures text_limit { request_form (object (member (codes "limit") (string (codes "4")) (member (codes "locations") (array no_items)
        (member (codes "nodes") (array no_items) no_members)))) ≡ None }
{}
