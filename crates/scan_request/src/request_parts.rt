//! The parts of a request by its form, before its nodes are checked and its projection is bound.

ghost use Rattle.std.specs.Prelude.{◌≡◌, map, option_map};
ghost use Rattle.vx_expr.specs.Terms.{root};
ghost use Rattle.vx_expr.specs.TermViews.{term};
ghost use Rattle.vx_layout.specs.Nodes.{node_data};
ghost use Rattle.scan_request.specs.NodeMembers.{told_value};
ghost use Rattle.scan_request.specs.RequestForms.{file_from as made_file, parts_from as made_parts};
ghost use Rattle.scan_request.specs.RequestViews.{file_of_parts, parts_said};
ghost use Rattle.scan_request.specs.RowForms.{given_or};

use crate::row_forms::RowsAsked;
use vx_base::SegmentLocation;
use vx_expr::Expr;
use vx_layout::LayoutNode;

/// Where each segment lies, and the nodes of the layout.
#[derive(Drop)]
pub(crate) struct FileParts {
    pub(crate) locations: Vec<SegmentLocation>,
    pub(crate) nodes: Vec<LayoutNode>,
}

/// A request in its form, before its nodes are checked and its projection is bound.
#[derive(Drop)]
pub(crate) struct RequestParts {
    pub(crate) file: FileParts,
    pub(crate) projection: Expr,
    pub(crate) rows: RowsAsked,
}

/// Where each segment lies and the nodes of the layout, where both are there.
pub(crate) fn file_from(
    locations: Option<Option<Vec<SegmentLocation>>>,
    nodes: Option<Option<Vec<LayoutNode>>>,
) -> Option<FileParts>
    ensures { option_map file_of_parts result ≡ made_file (told_value (option_map (option_map (λ v. v.items)) locations)) (told_value (option_map (option_map (λ v. map node_data v.items)) nodes)) }
{
    match (locations, nodes) {
        (Some(Some(locations)), Some(Some(nodes))) => Some(FileParts { locations, nodes }),
        _ => None,
    }
}

/// What is computed of a row: the row itself where the request says nothing of it.
pub(crate) fn projection_from(projection: Option<Option<Expr>>) -> Option<Expr>
    ensures { option_map term result ≡ given_or root (option_map (option_map term) projection) }
{
    match projection {
        Some(projection) => projection,
        None => Some(Expr::Root),
    }
}

/// The parts, where each of them is there.
pub(crate) fn parts_from(
    file: Option<FileParts>,
    rows: Option<RowsAsked>,
    projection: Option<Expr>,
) -> Option<RequestParts>
    ensures { option_map parts_said result ≡ made_parts (option_map file_of_parts file) rows (option_map term projection) }
{
    match (file, rows, projection) {
        (Some(file), Some(rows), Some(projection)) => Some(RequestParts {
            file,
            projection,
            rows,
        }),
        _ => None,
    }
}
