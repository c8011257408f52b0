//! Why bytes are no request.

ghost use Rattle.std.specs.Prelude.{◌≡◌};
ghost use Rattle.scan_request.specs.declared.request_errors.RequestError.TheVariants.{Memory};
ghost use Rattle.scan_request.specs.BindRefusals.{of_bind};
ghost use Rattle.scan_request.specs.LayoutRefusals.{of_layout};

use std::alloc::AllocError;
use thiserror::Error;
use vx_expr::BindError;
use vx_layout::LayoutError;

/// Why bytes are no request.
#[derive(Debug, Drop, Error)]
pub enum RequestError {
    /// No JSON, or not in the form of docs/FORMATS.md.
    #[error("bad request")]
    BadRequest,
    /// The nodes are in the form, but no layout tree: the first rule of docs/FORMATS.md that is broken, and
    /// the first node that breaks it.
    #[error("node {node} breaks rule {rule}")]
    BadLayout { node: u32, rule: u8 },
    /// The nodes are a layout tree, but the projection can't be bound to the dtype of its root.
    #[error("the projection can't be bound: {0}")]
    BadProjection(BindError),
    /// Memory ran out.
    #[error("out of memory")]
    Memory,
}

impl From<AllocError> for RequestError {
    ghost from_gives = { λ _ e. e ≡ Memory };

    fn from(_e: AllocError) -> RequestError {
        RequestError::Memory
    }
}

impl From<LayoutError> for RequestError {
    ghost from_gives = { λ refusal e. e ≡ of_layout refusal };

    fn from(refusal: LayoutError) -> RequestError {
        match refusal {
            LayoutError::BadLayout { node, rule } => RequestError::BadLayout { node, rule },
            LayoutError::Memory => RequestError::Memory,
        }
    }
}

impl From<BindError> for RequestError {
    ghost from_gives = { λ refusal e. e ≡ of_bind refusal };

    fn from(refusal: BindError) -> RequestError {
        match refusal {
            BindError::Memory => RequestError::Memory,
            refusal => RequestError::BadProjection(refusal),
        }
    }
}
