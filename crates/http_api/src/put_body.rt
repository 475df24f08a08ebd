//! The body of a put.
ghost use Rattle.std.specs.Prelude.{◌≡◌, map, None, Some, MatchOption};
ghost use Rattle.serde_json.specs.View.{view};
ghost use Rattle.http_api.specs.CallWork.{elements_of};

use serde_json::Value;

/// The elements that a body puts: the items of a list, or the one object that it is.
#[tactic(auto, using(crate::proofs::Bodies::list_elements))]
pub fn elements_of(body: &Value) -> Option<&[Value]>
    ensures { MatchOption result (elements_of (view body.now) ≡ None) (λ elements. elements_of (view body.now) ≡ Some (map view elements.now)) }
{
    if let Some(items) = body.as_array() {
        return Some(items.as_slice());
    }
    if body.is_object() {
        return Some(std::slice::from_ref(body));
    }
    None
}
