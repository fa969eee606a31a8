// Meanings only: the bytes of a sheet, its rows, the refusals of a sheet and of the writer, the sheet that edge records make. No function.
#![tactic(auto)]
