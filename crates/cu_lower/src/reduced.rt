//! The steps of reductions, searches for places, products, prefix sums and groups by labels.

ghost use Rattle.std.specs.Prelude.{◌≡◌, ◌<◌, ◌^◌, ◌++◌, IfOk, OnOk, slice_index};
ghost use Rattle.cu_lower_reduce.specs.Cumulative.{cumulative_steps, IsCumulative};
ghost use Rattle.cu_lower_reduce.specs.Grouped.{grouped_steps, IsGrouped};
ghost use Rattle.cu_lower_reduce.specs.Partials.{IsSetting};
ghost use Rattle.cu_lower_reduce.specs.Products.{product_steps, IsProduct};
ghost use Rattle.cu_lower_reduce.specs.Reductions.{reduction_steps, IsReduction};
ghost use Rattle.cu_lower_reduce.specs.Searches.{search_steps, IsSearch};
ghost use Rattle.cu_lower.specs.Parts.{AreOptions, setting, reduction_of, search_of, product_of, cumulative_of, grouped_of, grouped_over};

use crate::options::Options;
use cu_copy::rechunked;
use cu_form::{Arg, Items, group_kind};
use cu_lower_reduce::{
    Cumulative, Grouped, Product, Reduction, Search, Setting, Step, cumulative_step,
    cumulative_step_count, grouped_step, grouped_step_count, product_step, product_step_count,
    reduction_step, reduction_step_count, search_step, search_step_count,
};
use cu_need::{
    array_of, axes_reduced, group_axis, labels_wanted, left_wanted, right_wanted, sought_axis,
    sum_axis,
};
use cu_node::{NodeInfo, info_at};
use cu_num::FoldKind;
use std::alloc::{AllocError, Global};

/// What the steps of a node go by besides its arrays, of which `first` is the number of the first.
pub(crate) fn setting(options: &Options, first: u32) -> Setting
    requires options { AreOptions options.now }
    requires first { first < 2 ^ 31 }
    ensures setting { result ≡ setting options.now first }
    ensures kept { IsSetting result }
{
    Setting {
        first,
        split_every: options.split_every,
        reserved: options.reserved,
    }
}

/// The array with this place among these; 0 where there is none.
pub(crate) fn source_of(ins: &[u32], at: usize) -> u32
    ensures { result ≡ slice_index ins.now at }
{
    match ins.get(at) {
        Some(source) => *source,
        None => 0,
    }
}

/// Node number `node` as a reduction of an argument, whose array is the first of `ins`.
pub(crate) fn reduction_of(
    infos: &[NodeInfo],
    node: u32,
    kind: FoldKind,
    args: &[Arg],
    axes: &Option<Items<i64>>,
    ins: &[u32],
) -> Reduction
    ensures { result ≡ reduction_of infos.now node kind args.now axes.now ins.now }
{
    let from = array_of(infos, args, 0);
    let axes = axes_reduced(&from, axes);
    Reduction {
        kind,
        axes,
        source: source_of(ins, 0),
        from,
        made: info_at(infos, node),
    }
}

/// Node number `node` as a search for places in an argument, whose array is the first of `ins`.
pub(crate) fn search_of(
    infos: &[NodeInfo],
    node: u32,
    least: bool,
    args: &[Arg],
    axis: Option<i64>,
    ins: &[u32],
) -> Search
    ensures { result ≡ search_of infos.now node least args.now axis ins.now }
{
    let from = array_of(infos, args, 0);
    Search {
        least,
        axis: sought_axis(from.dims.rank(), axis),
        source: source_of(ins, 0),
        from,
        made: info_at(infos, node),
    }
}

/// Node number `node` as a product of operands in the chunks that are wanted of them; their arrays in these chunks are `ins`.
pub(crate) fn product_of(infos: &[NodeInfo], node: u32, args: &[Arg], ins: &[u32]) -> Product
    ensures { result ≡ product_of infos.now node args.now ins.now }
{
    let made = info_at(infos, node);
    let left = array_of(infos, args, 0);
    let right = array_of(infos, args, 1);
    Product {
        left: source_of(ins, 0),
        right: source_of(ins, 1),
        left_info: rechunked(&left_wanted(&made, &left, &right)),
        right_info: rechunked(&right_wanted(&made, &left, &right)),
        made,
    }
}

/// Node number `node` as prefix sums of an argument, whose array is the first of `ins`.
pub(crate) fn cumulative_of(
    infos: &[NodeInfo],
    node: u32,
    args: &[Arg],
    axis: Option<i64>,
    ins: &[u32],
) -> Cumulative
    ensures { result ≡ cumulative_of infos.now node args.now axis ins.now }
{
    let from = array_of(infos, args, 0);
    Cumulative {
        source: source_of(ins, 0),
        from,
        made: info_at(infos, node),
        axis: sum_axis(&from, axis),
    }
}

/// Node number `node` as groups of an array by labels in its chunks on the axis, whatever arrays these are.
pub(crate) fn grouped_of(
    infos: &[NodeInfo],
    node: u32,
    least: bool,
    args: &[Arg],
    axis: i64,
    groups: u32,
) -> Grouped
    ensures { result ≡ grouped_of infos.now node least args.now axis groups }
{
    let source_info = array_of(infos, args, 0);
    let labels = array_of(infos, args, 1);
    Grouped {
        kind: group_kind(least),
        axis: group_axis(&source_info, axis),
        groups,
        source: 0,
        labels: 0,
        source_info,
        labels_info: rechunked(&labels_wanted(&source_info, axis, &labels)),
        made: info_at(infos, node),
    }
}

/// The same over the array and the labels that are read.
pub(crate) fn grouped_over(x: &Grouped, ins: &[u32]) -> Grouped
    ensures { result ≡ grouped_over x.now ins.now }
{
    let mut over = *x;
    over.source = source_of(ins, 0);
    over.labels = source_of(ins, 1);
    over
}

/// The steps of a reduction.
pub(crate) fn reduction_steps(
    alloc: Global,
    s: &Setting,
    x: &Reduction,
) -> Result<Vec<Step>, AllocError>
    requires setting { IsSetting s.now }
    requires reduction { IsReduction x.now }
    ensures { IfOk result (λ steps. steps.items ≡ reduction_steps s.now x.now) }
{
    let mut steps = Vec::new(alloc);
    for at in 0..reduction_step_count(s, x) {
        steps.push(reduction_step(s, x, at))?;
    }
    Ok(steps)
}

/// The steps of a search for places.
pub(crate) fn search_steps(alloc: Global, s: &Setting, x: &Search) -> Result<Vec<Step>, AllocError>
    requires setting { IsSetting s.now }
    requires search { IsSearch x.now }
    ensures { IfOk result (λ steps. steps.items ≡ search_steps s.now x.now) }
{
    let mut steps = Vec::new(alloc);
    for at in 0..search_step_count(s, x) {
        steps.push(search_step(s, x, at))?;
    }
    Ok(steps)
}

/// Adds the steps of a product.
pub(crate) fn push_product(
    steps: &mut Vec<Step>,
    s: &Setting,
    x: &Product,
) -> Result<(), AllocError>
    requires setting { IsSetting s.now }
    requires product { IsProduct x.now }
    ensures { OnOk result (steps.new.items ≡ steps.old.items ++ product_steps s.now x.now) }
{
    for at in 0..product_step_count(s, x) {
        steps.push(product_step(s, x, at))?;
    }
    Ok(())
}

/// The steps of prefix sums.
pub(crate) fn cumulative_steps(
    alloc: Global,
    s: &Setting,
    x: &Cumulative,
) -> Result<Vec<Step>, AllocError>
    requires setting { IsSetting s.now }
    requires cumulative { IsCumulative x.now }
    ensures { IfOk result (λ steps. steps.items ≡ cumulative_steps s.now x.now) }
{
    let mut steps = Vec::new(alloc);
    for at in 0..cumulative_step_count(s, x) {
        steps.push(cumulative_step(s, x, at))?;
    }
    Ok(steps)
}

/// Adds the steps of groups by labels.
pub(crate) fn push_groups(steps: &mut Vec<Step>, s: &Setting, x: &Grouped) -> Result<(), AllocError>
    requires setting { IsSetting s.now }
    requires grouped { IsGrouped x.now }
    ensures { OnOk result (steps.new.items ≡ steps.old.items ++ grouped_steps s.now x.now) }
{
    for at in 0..grouped_step_count(s, x) {
        steps.push(grouped_step(s, x, at))?;
    }
    Ok(())
}
