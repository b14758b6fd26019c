//! Laws of the pulls of views: calls that do nothing and whose clauses are the laws.
ghost use Rattle.std.specs.Prelude.{List};
ghost use Rattle.cu_form.specs.declared.form.Form.{Form};
ghost use Rattle.cu_node.specs.declared.info.NodeInfo.{NodeInfo};
ghost use Rattle.cu_origin.specs.declared.pull.Pull.{Pull};
ghost use Rattle.cu_lower_view.specs.Typed.{IsTypedView, IsPull};

/// A typed view has a pull. It fits the shapes of the arrays that the view reads and the node's own; their types suit the node's; and
/// each number that comes from none of them is one of the node's type.
pub fn pull_law()
    ensures { (infos : List NodeInfo) (form : Form) (i : NodeInfo) → IsTypedView infos form i → (p : Pull) × IsPull infos form i p }
{}
