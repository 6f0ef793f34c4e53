//! What holds of texts and the graphs that they stand for.
ghost use Rattle.std.specs.Prelude.{◌≡◌, ℕ, List, MatchOption};
ghost use Rattle.graph_defs.specs.declared.plain.PlainGraph.{PlainGraph};
ghost use Rattle.graph_defs.specs.Plain.{IsPlainGraph};
ghost use Rattle.graph_text.specs.Text.{GraphText, fault_of};
ghost use Rattle.graph_text.specs.Written.{text_of};

/// The text that is written for a valid graph stands for it.
pub fn written_reads_back()
    ensures { (g : PlainGraph) → IsPlainGraph g → GraphText (text_of g) g }
{}

/// No text stands for two graphs.
pub fn stands_for_one_graph()
    ensures { (text : List ℕ) (g h : PlainGraph) → GraphText text g → GraphText text h → g ≡ h }
{}

/// A text stands for a graph or has a fault, and not both.
pub fn has_graph_or_fault()
    ensures { (text : List ℕ) → MatchOption (fault_of text)
        ((g : PlainGraph) × GraphText text g)
        (λ fault. (g : PlainGraph) → ¬ GraphText text g) }
{}
