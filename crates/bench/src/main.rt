// Measures the library on generated circuits: without an argument small ones and counts only, with `time` large ones and times too.
#![tactic(auto)]

use anyhow::anyhow;
use circuits::press_circuit;
use command_line::program::Program;
use comparisons::compare_edges;
use evaluations::evaluate_graph;
use measure::Measure;
use nodes::build_graph;
use workloads::kind::Kind;
use workloads::question::Question;

mod circuits;
mod comparisons;
mod evaluations;
mod measure;
mod nodes;
mod store;

fn small(rt: &HostRuntime) -> anyhow::Result<()> {
    press_circuit(rt, Kind::Scan, 200, Measure::Counts)?;
    press_circuit(rt, Kind::Chained, 200, Measure::Counts)?;
    press_circuit(rt, Kind::Chained, 1_000, Measure::Counts)?;
    build_graph(rt, Kind::Scan, 1_000, Measure::Counts)?;
    build_graph(rt, Kind::Chained, 1_000, Measure::Counts)?;
    build_graph(rt, Kind::Chained, 20_000, Measure::Counts)?;
    evaluate_graph(rt, Kind::Scan, 1_000, Measure::Counts)?;
    evaluate_graph(rt, Kind::Chained, 1_000, Measure::Counts)?;
    evaluate_graph(rt, Kind::Chained, 20_000, Measure::Counts)?;
    compare_edges(rt, Kind::Scan, Question::Parities, 200, Measure::Counts)?;
    compare_edges(rt, Kind::Chained, Question::Parities, 200, Measure::Counts)?;
    compare_edges(
        rt,
        Kind::Chained,
        Question::Conjunction,
        200,
        Measure::Counts,
    )
}

fn large(rt: &HostRuntime) -> anyhow::Result<()> {
    large_circuits(rt)?;
    large_graphs(rt)?;
    large_evaluations(rt)?;
    large_comparisons(rt)
}

fn large_circuits(rt: &HostRuntime) -> anyhow::Result<()> {
    press_circuit(rt, Kind::Scan, 1_000, Measure::Times { rounds: 20 })?;
    press_circuit(rt, Kind::Chained, 1_000, Measure::Times { rounds: 20 })?;
    press_circuit(rt, Kind::Scan, 10_000, Measure::Times { rounds: 3 })?;
    press_circuit(rt, Kind::Chained, 10_000, Measure::Times { rounds: 20 })?;
    press_circuit(rt, Kind::Chained, 20_000, Measure::Times { rounds: 20 })?;
    press_circuit(rt, Kind::Chained, 40_000, Measure::Times { rounds: 20 })?;
    press_circuit(rt, Kind::Chained, 50_000, Measure::Times { rounds: 10 })
}

fn large_graphs(rt: &HostRuntime) -> anyhow::Result<()> {
    build_graph(rt, Kind::Scan, 1_000, Measure::Times { rounds: 20 })?;
    build_graph(rt, Kind::Chained, 1_000, Measure::Times { rounds: 20 })?;
    build_graph(rt, Kind::Scan, 10_000, Measure::Times { rounds: 3 })?;
    build_graph(rt, Kind::Chained, 10_000, Measure::Times { rounds: 20 })?;
    build_graph(rt, Kind::Chained, 500_000, Measure::Times { rounds: 3 })?;
    build_graph(rt, Kind::Chained, 1_000_000, Measure::Times { rounds: 3 })
}

fn large_evaluations(rt: &HostRuntime) -> anyhow::Result<()> {
    evaluate_graph(rt, Kind::Chained, 10_000, Measure::Times { rounds: 20 })?;
    evaluate_graph(rt, Kind::Chained, 100_000, Measure::Times { rounds: 20 })?;
    evaluate_graph(rt, Kind::Chained, 1_000_000, Measure::Times { rounds: 5 })
}

fn large_comparisons(rt: &HostRuntime) -> anyhow::Result<()> {
    let measure = Measure::Times { rounds: 10 };
    compare_edges(rt, Kind::Chained, Question::Parities, 1_000, measure)?;
    compare_edges(rt, Kind::Chained, Question::Parities, 10_000, measure)?;
    compare_edges(rt, Kind::Chained, Question::Conjunction, 1_000, measure)?;
    compare_edges(rt, Kind::Chained, Question::Conjunction, 10_000, measure)
}

fn bench(rt: &HostRuntime, word: Option<&str>) -> anyhow::Result<()> {
    match word {
        None => small(rt),
        Some("time") => large(rt),
        Some(_) => Err(anyhow!("the argument can only be `time`")),
    }
}

fn main(rt: HostRuntime) -> anyhow::Result<()> {
    let Some(words) = Program::Bench.arguments(&rt)? else {
        return Ok(());
    };
    bench(&rt, words.first().map(|word| word.as_str()))
}
