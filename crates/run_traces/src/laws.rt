// The laws of traces. The function does nothing: it states them.
ghost use Rattle.run_traces.specs.Laws.{TraceIsExecution, SameTrace};

/// A trace whose steps are all defined shows an execution, if it begins in an initial state. Programs whose
/// steps agree have one trace.
pub fn trace_laws()
    ensures executions { TraceIsExecution }
    ensures same { SameTrace }
{}
