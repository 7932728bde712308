// What is promised of the volume, and the proof of it. There is no code here: the statement and its proof are in specs/.
#![tactic(auto)]
