//! The plan of an expression, node by node.

ghost use Rattle.std.specs.Prelude.{◌≡◌, ◌≤◌, ◌<◌, ◌+◌, ◌^◌, ◌++◌, [], ℕ, List, true, false, All, IfOk, IfSome, OnOk, bytes_eq, length, slice_index};
ghost use Rattle.std.specs.List.{position_or_len};
ghost use Rattle.cu_grid.specs.Grid.{IsGrid};
ghost use Rattle.cu_node.specs.Info.{IsInfo, info_at};
ghost use Rattle.cu_op.specs.Arrays.{AllStored};
ghost use Rattle.cu_op.specs.Sound.{Sound};
ghost use Rattle.cu_need.specs.Live.{is_live};
ghost use Rattle.cu_lower.specs.Inputs.{input_names};
ghost use Rattle.cu_lower.specs.Plan.{lowered, plan_of};
ghost use Rattle.cu_lower_reduce.specs.Steps.{grid_of, made_infos, all_made};
ghost use Rattle.cu_lower.specs.Parts.{AreOptions, IsGrowing, IsGrown, CanGrow, HasSteps, Make, is_given, pair_arrays, source_places, steps_of, with_step, with_steps, with_place, with_made, with_next_node, with_live};
ghost use Rattle.cu_lower.specs.Premises.{IsLowerable};

use crate::inputs::{input_arrays, input_names, place_of};
use crate::laws::plan_law;
use crate::options::Options;
use crate::parts::{made_array, source_places};
use crate::steps::steps_of;
use cu_expr::InputInfo;
use cu_form::{Expr, Form};
use cu_lower_reduce::{
    Step, cumulative_law, grouped_law, operands_law, product_law, rechunk_law, reduction_law,
    search_law,
};
use cu_lower_view::pull_law;
use cu_name::IdText;
use cu_need::{live_law, live_marks};
use cu_node::NodeInfo;
use cu_op::{ArrayInfo, Plan, Planned};
use cu_store::NoMemory;
use std::alloc::{AllocError, Global};
use std::marker::Model;

/// A plan while nodes are gone over: its arrays and operations so far, and for each of these nodes the number of its array.
#[derive(Drop)]
struct Growing {
    arrays: Vec<ArrayInfo>,
    ops: Vec<Planned>,
    places: Vec<u32>,
}

impl Model for Growing {
    ghost use Rattle.cu_lower.specs.Parts.{Grown};

    ghost Value = { Grown };

    ghost view = { λ g. record { arrays = g.arrays.items; ops = g.ops.items; places = g.places.items } };
}

impl Growing {
    /// The inputs' arrays alone.
    fn first(alloc: Global, arrays: Vec<ArrayInfo>) -> Growing
        ensures { result ≡ record { arrays = arrays.items; ops = []; places = [] } }
    {
        Growing {
            arrays,
            ops: Vec::new(alloc),
            places: Vec::new(alloc),
        }
    }

    /// Adds a node whose array has this number.
    fn add_place(&mut self, place: u32) -> Result<(), AllocError>
        ensures { OnOk result (self.new ≡ with_place self.old place) }
    {
        self.places.push(place)?;
        Ok(())
    }

    /// Adds the next node, which is an input: its array stands at the place of its name.
    fn add_input(&mut self, names: &[IdText], name: &IdText) -> Result<(), AllocError>
        requires { length names.now ≤ 256 }
        ensures { OnOk result (self.new ≡ with_place self.old (position_or_len (bytes_eq name.now) names.now)) }
    {
        self.add_place(place_of(names, name) as u32)
    }

    /// Adds the one or two arrays that operation number `maker` makes, where `others` made arrays come before them.
    fn add_arrays(
        &mut self,
        expr: &Expr,
        stored: bool,
        others: u32,
        maker: u32,
        values: Option<NodeInfo>,
        made: &NodeInfo,
    ) -> Result<(), AllocError>
        requires few { others < 2 ^ 31 }
        requires values { IfSome values (λ i. IsGrid (grid_of i)) }
        requires made { IsGrid (grid_of made.now) }
        ensures { OnOk result (self.new ≡ record { arrays = self.old.arrays ++ pair_arrays expr.now stored others maker values made.now; ops = self.old.ops; places = self.old.places }) }
    {
        match values {
            None => self
                .arrays
                .push(made_array(expr, made, stored, others, maker))?,
            Some(info) => {
                self.arrays
                    .push(made_array(expr, &info, false, others, maker))?;
                self.arrays
                    .push(made_array(expr, made, stored, others + 1, maker))?;
            }
        }
        Ok(())
    }

    /// Adds a step of the next node, where `given` arrays are inputs; `last` says that it's the node's last step.
    fn add_step(
        &mut self,
        expr: &Expr,
        given: u32,
        last: bool,
        step: Step,
    ) -> Result<(), AllocError>
        requires growing { IsGrowing expr.now self.old }
        requires given { given ≡ length (input_names expr.now) }
        requires inputs { given ≤ 256 }
        requires nodes { length self.old.places ≤ 256 }
        requires few { length self.old.ops < 2 ^ 20 }
        requires grids { All (λ i. IsGrid (grid_of i)) (made_infos step) }
        ensures { OnOk result (self.new ≡ with_step expr.now last self.old step) }
    {
        let node = self.places.len() as u32;
        let others = self.arrays.len() as u32 - given;
        let maker = self.ops.len() as u32;
        let Step {
            op,
            values,
            made,
            need,
        } = step;
        let stored = last && node == expr.out();
        self.add_arrays(expr, stored, others, maker, values, &made)?;
        self.ops.push(Planned {
            op,
            node,
            projected: need,
        })?;
        Ok(())
    }

    /// Adds the steps of the next node, where `given` arrays are inputs.
    fn add_steps(&mut self, expr: &Expr, given: u32, steps: Vec<Step>) -> Result<(), AllocError>
        requires growing { IsGrowing expr.now self.old }
        requires given { given ≡ length (input_names expr.now) }
        requires inputs { given ≤ 256 }
        requires nodes { length self.old.places ≤ 256 }
        requires few { length self.old.ops + length steps.items ≤ 2 ^ 20 }
        requires grids { All (λ i. IsGrid (grid_of i)) (all_made steps.items) }
        ensures { OnOk result (self.new ≡ with_steps expr.now self.old steps.items) }
    {
        let mut left = steps.len();
        for step in steps {
            left -= 1;
            self.add_step(expr, given, left == 0, step)?;
        }
        Ok(())
    }

    /// Adds the steps of the next node, which is live; its array is the last that they make.
    fn add_made(
        &mut self,
        alloc: Global,
        expr: &Expr,
        infos: &[NodeInfo],
        names: &[IdText],
        options: &Options,
        form: &Form,
    ) -> Result<(), AllocError>
        requires grown { IsGrown expr.now self.old }
        requires names { names.now ≡ input_names expr.now }
        requires inputs { length names.now ≤ 256 }
        requires nodes { length self.old.places ≤ 256 }
        requires form { CanGrow infos.now options.now (length self.old.places) form.now }
        requires steps { (places : List ℕ) (first : ℕ) → first < 2 ^ 30 → Make (info_at infos.now (length self.old.places)) (steps_of infos.now options.now (length self.old.places) form.now (source_places expr.now places form.now) first) }
        requires infos { All IsInfo infos.now }
        requires options { AreOptions options.now }
        ensures { OnOk result (self.new ≡ with_made expr.now infos.now options.now self.old form.now) }
    {
        let node = self.places.len() as u32;
        let first = self.arrays.len() as u32;
        let sources = source_places(names, &self.places, form);
        let steps = steps_of(alloc, infos, options, node, form, sources, first)?;
        self.add_steps(expr, names.len() as u32, steps)?;
        let place = self.arrays.len() as u32 - 1;
        self.add_place(place)
    }

    /// Adds the next node, which is live.
    fn add_live(
        &mut self,
        alloc: Global,
        expr: &Expr,
        infos: &[NodeInfo],
        names: &[IdText],
        options: &Options,
        form: &Form,
    ) -> Result<(), AllocError>
        requires grown { IsGrown expr.now self.old }
        requires names { names.now ≡ input_names expr.now }
        requires inputs { length names.now ≤ 256 }
        requires nodes { length self.old.places ≤ 256 }
        requires form { is_given expr.now (length self.old.places) form.now ≡ false → CanGrow infos.now options.now (length self.old.places) form.now }
        requires steps { HasSteps expr.now infos.now options.now (length self.old.places) form.now }
        requires infos { All IsInfo infos.now }
        requires options { AreOptions options.now }
        ensures { OnOk result (self.new ≡ with_next_node expr.now infos.now options.now self.old form.now) }
    {
        match form {
            Form::Input { name } if self.places.len() as u32 != expr.out() => {
                self.add_input(names, name)
            }
            _ => self.add_made(alloc, expr, infos, names, options, form),
        }
    }

    /// Adds the next node.
    fn add_node(
        &mut self,
        alloc: Global,
        expr: &Expr,
        infos: &[NodeInfo],
        names: &[IdText],
        options: &Options,
        live: bool,
        form: &Form,
    ) -> Result<(), AllocError>
        requires grown { IsGrown expr.now self.old }
        requires names { names.now ≡ input_names expr.now }
        requires inputs { length names.now ≤ 256 }
        requires nodes { length self.old.places ≤ 256 }
        requires form { live ≡ true → is_given expr.now (length self.old.places) form.now ≡ false → CanGrow infos.now options.now (length self.old.places) form.now }
        requires steps { live ≡ true → HasSteps expr.now infos.now options.now (length self.old.places) form.now }
        requires infos { All IsInfo infos.now }
        requires options { AreOptions options.now }
        requires live { live ≡ is_live expr.now (length self.old.places) }
        ensures { OnOk result (self.new ≡ with_live expr.now infos.now options.now self.old form.now) }
    {
        if live {
            self.add_live(alloc, expr, infos, names, options, form)
        } else {
            self.add_place(0)
        }
    }

    /// The plan whose result is the array of this node.
    fn into_plan(self, out: u32, options: &Options) -> Plan
        requires out { out < length self.places }
        requires sound { Sound (record { arrays = self.arrays; ops = self.ops; out = slice_index self.places out; allowed = options.now.allowed; reserved = options.now.reserved }) }
        ensures { result ≡ record { arrays = self.arrays; ops = self.ops; out = slice_index self.places out; allowed = options.now.allowed; reserved = options.now.reserved } }
    {
        let Growing {
            arrays,
            ops,
            places,
        } = self;
        let place = places[out as usize];
        Plan::make(arrays, ops, place, options.allowed, options.reserved)
    }
}

/// The plan's arrays and operations, node by node.
fn grow(
    alloc: Global,
    expr: &Expr,
    infos: &[NodeInfo],
    inputs: &[InputInfo],
    options: &Options,
) -> Result<Growing, AllocError>
    requires { IsLowerable expr.now infos.now inputs.now options.now }
    ensures { IfOk result (λ grown. grown ≡ lowered expr.now infos.now inputs.now options.now) }
{
    live_law();
    pull_law();
    reduction_law();
    search_law();
    product_law();
    cumulative_law();
    grouped_law();
    rechunk_law();
    operands_law();
    let marks = live_marks(expr);
    let names = input_names(alloc, expr, &marks)?;
    let arrays = input_arrays(alloc, inputs, &names)?;
    let mut grown = Growing::first(alloc, arrays);
    let nodes = expr.nodes();
    for k in 0..nodes.len() {
        grown.add_node(
            alloc,
            expr,
            infos,
            &names,
            options,
            marks[k],
            &nodes[k].form,
        )?;
    }
    Ok(grown)
}

/// The plan of an expression, where `infos` is what is known of its nodes (this project's own rule): one array for each input that a
/// live node uses, then for each other live node, in order, the operations of its steps and the arrays that they make, of which the last
/// is the node's own. An elementwise node and a view have one step; a reduction, a search for places and a product have one over chunks,
/// and one for each round in which partial results are merged. Operands of a function or of a product that have other chunks than are
/// wanted of them are copied before; a rechunk is a copy, and so is an input that is itself stored: one, or two by way of an array between.
/// The stored node's own array has the output's name as prefix, each other one `_cubed/NAME/K`, where K counts the made arrays from 0.
/// Each array is stored.
pub fn lower(
    alloc: Global,
    expr: &Expr,
    infos: &[NodeInfo],
    inputs: &[InputInfo],
    options: &Options,
) -> Result<Plan, NoMemory>
    requires { IsLowerable expr.now infos.now inputs.now options.now }
    ensures plan { IfOk result (λ plan. plan ≡ plan_of expr.now infos.now inputs.now options.now) }
    ensures sound { IfOk result Sound }
    ensures stored { IfOk result (λ plan. AllStored plan.arrays) }
{
    plan_law();
    pull_law();
    reduction_law();
    search_law();
    product_law();
    cumulative_law();
    grouped_law();
    rechunk_law();
    operands_law();
    match grow(alloc, expr, infos, inputs, options) {
        Ok(grown) => Ok(grown.into_plan(expr.out(), options)),
        Err(_) => Err(NoMemory),
    }
}
